ghost use Rattle.std.specs.Prelude.{◌≡◌, ◌≤◌, ◌<◌, get_or, length};
ghost use Rattle.quiet_core.specs.Rows.{below};
ghost use Rattle.quiet_core.specs.Account.{fresh, managers, mark, opened, owing, reported};
ghost use Rattle.quiet_core.specs.Step.{put_mark};
ghost use Rattle.quiescence.specs.Answers.{IsPost, NoDuty};
ghost use Rattle.work_claims.specs.Acting.{Grew, Keeps, Others, Still};

use crate::sending::Sending;
use quiescence::{Hand, Round};
use sim_base::ManagerId;

/// Posts the letters of an actor to those of one manager, if there are any.
fn post_some(round: &Round, hand: &mut Hand, m: ManagerId, i: u32, to: ManagerId, n: u32)
    requires of { hand.old.round ≡ round.now }
    requires manager { m.0 < managers round.now.shape }
    requires recipients { to.0 < managers round.now.shape }
    requires weight { 1 ≤ hand.old.account.weight }
    requires open { opened (mark hand.old.account m.0 i) ≡ 1 }
    requires owed { n ≤ owing (mark hand.old.account m.0 i) }
    ensures of { hand.new.round ≡ round.now }
    ensures some { 1 ≤ n → IsPost m.0 i to.0 n hand.old.account hand.new.account }
    ensures none { n ≡ 0 → hand.new.account ≡ hand.old.account }
{
    if n > 0 {
        round.post(hand, m, i, to, n);
    }
}

/// Announces the letters of an actor, and posts them to the actors of each manager.
pub(crate) fn publish(round: &Round, hand: &mut Hand, m: ManagerId, i: u32, sending: &Sending)
    requires of { hand.old.round ≡ round.now }
    requires manager { m.0 < managers round.now.shape }
    requires weight { 1 ≤ hand.old.account.weight }
    requires fresh { mark hand.old.account m.0 i ≡ fresh }
    requires wide { length sending.now.to ≡ 16 }
    requires total { below (λ n. get_or sending.now.to n 0) (managers round.now.shape) ≡ sending.now.total }
    requires few { sending.now.total ≤ 1024 }
    ensures of { hand.new.round ≡ round.now }
    ensures keeps { Keeps hand.old.account hand.new.account }
    ensures exhausted { hand.new.account.exhausted ≡ hand.old.account.exhausted }
    ensures duties { hand.new.account.duties ≡ hand.old.account.duties }
    ensures others { Others m.0 i hand.old.account hand.new.account }
    ensures open { opened (mark hand.new.account m.0 i) ≡ 1 }
    ensures owed { owing (mark hand.new.account m.0 i) ≡ 0 }
    ensures grew { Grew (managers round.now.shape) m.0 (λ n. get_or sending.now.to n 0) hand.old.account hand.new.account }
{
    let managers = round.managers();
    if sending.total > 0 {
        round.raise(hand, m, i, sending.total);
        for n in 0..managers {
            post_some(round, hand, m, i, ManagerId(n as u32), sending.to[n]);
        }
    }
}

/// Reports an actor of which nothing is left to post, and passes each duty on.
pub(crate) fn report_done(round: &Round, hand: &mut Hand, m: ManagerId, i: u32)
    requires of { hand.old.round ≡ round.now }
    requires manager { m.0 < managers round.now.shape }
    requires weight { 1 ≤ hand.old.account.weight }
    requires open { opened (mark hand.old.account m.0 i) ≡ 1 }
    requires posted { owing (mark hand.old.account m.0 i) ≡ 0 }
    requires no_duty { NoDuty hand.old.account }
    ensures of { hand.new.round ≡ round.now }
    ensures still { Still hand.old.account hand.new.account }
    ensures marks { hand.new.account.marks ≡ (put_mark hand.old.account m.0 i reported).marks }
    ensures no_duty { NoDuty hand.new.account }
{
    let after = round.done(hand, m, i);
    round.climb_up(hand, after);
}
