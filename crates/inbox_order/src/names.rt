ghost use Rattle.std.specs.Prelude.{◌≡◌, ◌++◌, if◌then◌else◌, List, [], length, map, nat_lt, IfOk, OnOk};
ghost use Rattle.std.specs.List.Sorted.{IsNonDecreasingBy};
ghost use Rattle.actor_trait.specs.InboxOrder.{key_of};
ghost use Rattle.actor_trait.specs.declared.letter.Letter.{Letter};
ghost use Rattle.inbox_order.specs.Keyed.{crowded, name_of};

use crate::groups::run_of;
use actor_trait::{Letter, Precedence};
use hash_lanes::{LetterName, letter_keys};
use hash_seed::Key;
use sim_base::Memory;
use std::alloc::Global;

/// What the keys of the letters are made of that don't stand alone in their inbox, in a list that stands
/// by recipient. Err is want of memory.
pub(crate) fn names_of_crowded(alloc: Global, letters: &[Letter]) -> Result<Vec<LetterName>, Memory>
    requires { IsNonDecreasingBy (λ l. l.to.0) letters.now }
    ensures { IfOk result (λ names. names.items ≡ map name_of (crowded letters.now)) }
{
    let mut names = Vec::new(alloc);
    let mut start = 0;
    while start < letters.len() {
        let end = start + run_of(&letters[start..]);
        push_group(&mut names, &letters[start..end])?;
        start = end;
    }
    Ok(names)
}

/// Adds the letters of a group that has more than one.
fn push_group(names: &mut Vec<LetterName>, letters: &[Letter]) -> Result<(), Memory>
    ensures { OnOk result (names.new.items ≡ names.old.items
        ++ map name_of (if nat_lt 1 (length letters.now) then letters.now else [])) }
{
    if letters.len() > 1 {
        push_names(names, letters)?;
    }
    Ok(())
}

/// Adds letters.
pub(crate) fn push_names(names: &mut Vec<LetterName>, letters: &[Letter]) -> Result<(), Memory>
    ensures { OnOk result (names.new.items ≡ names.old.items ++ map name_of letters.now) }
{
    for letter in letters {
        names.push(LetterName {
            recipient: letter.to.0,
            sender: letter.from.0,
            serial: letter.serial,
        })?;
    }
    Ok(())
}

/// The keys of the letters that have these names. Err is want of memory.
pub(crate) fn keys_of(
    alloc: Global,
    names: &[LetterName],
    precedence: &Precedence<'_>,
) -> Result<Vec<Key>, Memory>
    ensures { (letters : List Letter) → names.now ≡ map name_of letters
        → IfOk result (λ keys. keys.items ≡ map (key_of precedence.now) letters) }
{
    let sent = precedence.sent;
    let keys = letter_keys(alloc, precedence.seed, sent.tick, sent.diasca, names)?;
    Ok(keys)
}
