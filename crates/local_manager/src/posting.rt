ghost use Rattle.std.specs.Prelude.{◌≡◌, ◌+◌, ◌++◌, ◌<◌, ◌≤◌, ◌-◌, ◌^◌, [], min, not, true, length, if◌then◌else◌, IfOk, OnOk};
ghost use Rattle.std.specs.List.{All, count_by, filter};
ghost use Rattle.sim_base.specs.declared.ids.ActorId.{ActorId};
ghost use Rattle.actor_trait.specs.InboxOrder.{is_to};
ghost use Rattle.inbox_order.specs.Inboxes.{inbox_of};
ghost use Rattle.inbox_store.specs.Letters.{list_of, top_of};
ghost use Rattle.sim_model.specs.Moment.{is_alive};
ghost use Rattle.local_manager.specs.Mail.{IsEmpty};

use crate::states::is_alive;
use actor_trait::Letter;
use inbox_order::Inboxes;
use inbox_store::LetterStore;
use sim_base::{ActorId, Memory};

/// Puts those letters whose recipient lives, for which there is room. The answer is how many others there
/// are.
fn put_living<A>(store: &mut LetterStore, states: &[Option<A>], letters: &[Letter]) -> u64
    requires room { length letters.now ≤ store.old.spare }
    requires known { length states.now ≤ top_of store.old }
    ensures lists { (to : ActorId) → list_of store.new to.0 ≡ list_of store.old to.0
        ++ (if is_alive states.now to then filter (is_to to) letters.now else []) }
    ensures spare { store.old.spare ≤ store.new.spare + length letters.now }
    ensures top { top_of store.new ≡ top_of store.old }
    ensures dead { result ≡ count_by (λ l. not (is_alive states.now l.to)) letters.now }
{
    let mut dead = 0;
    for letter in letters {
        if is_alive(states, letter.to) {
            store.put(*letter);
        } else {
            dead += 1;
        }
    }
    dead
}

/// Puts the letters of a moment that go to the living: those of the inboxes, and behind them those that
/// tell of births. Ok is how many others there are, which stands still at the end of u64. Err is want of
/// memory; some may be put then.
pub(crate) fn deliver<A>(
    store: &mut LetterStore,
    states: &[Option<A>],
    inboxes: &Inboxes,
    told: &[Letter],
) -> Result<u64, Memory>
    requires empty { IsEmpty store.old }
    requires few { length states.now < 2 ^ 32 }
    ensures lists { OnOk result ((to : ActorId) → list_of store.new to.0
        ≡ (if is_alive states.now to then inbox_of inboxes.now to ++ filter (is_to to) told.now else [])) }
    ensures dead { IfOk result (λ dead. dead ≡ min (count_by (λ l. not (is_alive states.now l.to)) inboxes.now
        + count_by (λ l. not (is_alive states.now l.to)) told.now) (2 ^ 64 - 1)) }
{
    let sent = inboxes.as_slice();
    store.reserve(sent.len() + told.len(), ActorId(states.len() as u32))?;
    let dead = put_living(store, states, sent);
    let more = put_living(store, states, told);
    Ok(dead.saturating_add(more))
}
