ghost use Rattle.std.specs.Prelude.{◌≡◌, ◌≤◌, List, length, IfOk, IsOk, OnOk};
ghost use Rattle.std.specs.List.{All};
ghost use Rattle.std.specs.List.Sorted.{IsPermutation};
ghost use Rattle.sim_base.specs.declared.ids.ActorId.{ActorId};
ghost use Rattle.actor_trait.specs.InboxOrder.{AreDistinct, in_order};
ghost use Rattle.actor_trait.specs.declared.letter.Letter.{Letter};

use crate::names::{keys_of, push_names};
use crate::spots::{Desk, put_in_order_by};
use actor_trait::{Letter, Precedence};
use sim_base::{Items, Memory};
use std::alloc::Global;

/// The letters of one inbox in inbox order: first those of urgent senders, then the others, and within
/// each of the two groups by key, then by sender, then by serial. Where no two agree in sender and
/// serial, the order in which they came doesn't matter. Fewer than two letters need no key. Err is want
/// of memory, and never comes for fewer than two letters.
pub fn order_inbox(
    alloc: Global,
    letters: Items<Letter>,
    precedence: &Precedence<'_>,
) -> Result<Items<Letter>, Memory>
    ensures order { IfOk result (λ ordered. ordered ≡ in_order precedence.now letters) }
    ensures arrival { AreDistinct letters → (to : ActorId) → All (λ l. l.to ≡ to) letters
        → (others : List Letter) → IsPermutation letters others
        → IfOk result (λ ordered. ordered ≡ in_order precedence.now others) }
    ensures short { length letters ≤ 1 → IsOk result }
{
    if letters.len() < 2 {
        return Ok(letters);
    }
    let mut letters = letters.into_vec();
    put_in_order(alloc, letters.as_mut_slice(), precedence)?;
    Ok(Items::of(letters))
}

/// Puts the letters of one inbox in order. Err is want of memory.
fn put_in_order(
    alloc: Global,
    letters: &mut [Letter],
    precedence: &Precedence<'_>,
) -> Result<(), Memory>
    ensures { OnOk result (letters.new ≡ in_order precedence.now letters.old) }
{
    let mut names = Vec::new(alloc);
    push_names(&mut names, letters)?;
    let keys = keys_of(alloc, &names, precedence)?;
    put_in_order_by(&mut Desk::new(alloc), letters, &keys, precedence)
}
