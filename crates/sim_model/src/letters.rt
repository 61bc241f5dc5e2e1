ghost use Rattle.std.specs.Prelude.{◌≡◌, ◌++◌, ◌<◌, ◌≤◌, ◌^◌, length, OnOk};
ghost use Rattle.std.specs.List.{All, filter, flat_map};
ghost use Rattle.sim_model.specs.Moment.{dead_among, is_alive, letters_of, post, sends_of};

use crate::births::add_birth_letters;
use crate::world::is_alive;
use crate::{Newborn, Report};
use actor_trait::{Letter, Parcel};
use sim_base::{ActorId, Memory};

/// Adds what one sends.
fn post(letters: &mut Vec<Letter>, from: ActorId, parcels: &[Parcel]) -> Result<(), Memory>
    requires { length parcels.now < 2 ^ 32 }
    ensures { OnOk result (letters.new.items ≡ letters.old.items ++ post from 0 parcels.now) }
{
    let mut serial = 0;
    for parcel in parcels {
        letters.push(Letter {
            to: parcel.to,
            from,
            serial,
            payload: parcel.payload,
        })?;
        serial += 1;
    }
    Ok(())
}

/// The sends of a moment, in order of sender, in place of what was there.
fn post_all<A>(letters: &mut Vec<Letter>, reports: &[Report<A>]) -> Result<(), Memory>
    requires { All (λ r. length r.outcome.sends ≤ 1024) reports.now }
    ensures { OnOk result (letters.new.items ≡ flat_map sends_of reports.now) }
{
    letters.clear();
    for report in reports {
        post(letters, report.id, report.outcome.sends.as_slice())?;
    }
    Ok(())
}

/// The letters of a moment, in place of what was there.
pub(crate) fn collect_letters<A>(
    letters: &mut Vec<Letter>,
    reports: &[Report<A>],
    born: &[Newborn<A>],
) -> Result<(), Memory>
    requires { All (λ r. length r.outcome.sends ≤ 1024) reports.now }
    ensures { OnOk result (letters.new.items ≡ letters_of reports.now born.now) }
{
    post_all(letters, reports)?;
    add_birth_letters(letters, born)
}

/// Keeps the letters to the living. The answer is how many others there were.
pub(crate) fn keep_living<A>(letters: &mut Vec<Letter>, states: &[Option<A>]) -> usize
    ensures kept { letters.new.items ≡ filter (λ l. is_alive states.now l.to) letters.old.items }
    ensures dead { result ≡ dead_among states.now letters.old.items }
{
    let all = letters.len();
    letters.retain(|letter| is_alive(states, letter.to));
    all - letters.len()
}
