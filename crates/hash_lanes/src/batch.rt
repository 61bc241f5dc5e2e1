ghost use Rattle.std.specs.Prelude.{◌≡◌, ◌<◌, ◌≤◌, ◌+◌, ◌-◌, ◌++◌, IfOk, drop, length, map, vec_capacity, vec_len};
ghost use Rattle.hash_lanes.specs.Batch.{key_of};
ghost use Rattle.hash_lanes.specs.Lanes.{IsOpened};

use crate::keys::{four_keys, opened};
use hash_seed::{Key, letter_key};
use std::alloc::{AllocError, Global};
use std::simd::u32x4;

/// What tells apart the letters that were sent at one moment.
#[derive(Clone, Copy, Debug, PartialEq, Eq)]
pub struct LetterName {
    /// The number of the actor that it goes to.
    pub recipient: u32,
    /// The number of the actor that sent it.
    pub sender: u32,
    /// Its place, from 0, among what its sender sent at that moment.
    pub serial: u32,
}

/// The fewest letters for which lanes are worth their opening.
const FEWEST: usize = 3;

/// The keys of letters that were sent at a tick and a diasca under a seed, in the order of the letters:
/// each is what `letter_key` gives. Fewer than three are made one by one, more of them four at a time.
/// Err is want of memory.
pub fn letter_keys(
    alloc: Global,
    seed: u64,
    tick: u64,
    diasca: u32,
    letters: &[LetterName],
) -> Result<Vec<Key>, AllocError>
    ensures { IfOk result (λ keys. keys.items ≡ map (key_of seed tick diasca) letters.now) }
{
    let mut keys = Vec::with_capacity(alloc, letters.len())?;
    if letters.len() < FEWEST {
        put_each(&mut keys, seed, tick, diasca, letters);
    } else {
        put_fours(&mut keys, seed, tick, diasca, letters);
    }
    Ok(keys)
}

/// The keys of letters, one by one.
fn put_each(keys: &mut Vec<Key>, seed: u64, tick: u64, diasca: u32, letters: &[LetterName])
    requires { vec_len keys.old + length letters.now ≤ vec_capacity keys.old }
    ensures { keys.new.items ≡ keys.old.items ++ map (key_of seed tick diasca) letters.now }
{
    for letter in letters {
        let key = letter_key(
            seed,
            tick,
            diasca,
            letter.recipient,
            letter.sender,
            letter.serial,
        );
        keys.push_reserved(key);
    }
}

/// The keys of letters, four at a time.
fn put_fours(keys: &mut Vec<Key>, seed: u64, tick: u64, diasca: u32, letters: &[LetterName])
    requires { vec_len keys.old + length letters.now ≤ vec_capacity keys.old }
    ensures { keys.new.items ≡ keys.old.items ++ map (key_of seed tick diasca) letters.now }
{
    let opened = opened(seed, tick, diasca);
    let fours = letters.len() / 4;
    'fours: for i in 0..fours {
        let at = 4 * i;
        let a = letters[at];
        let b = letters[at + 1];
        let c = letters[at + 2];
        let d = letters[at + 3];
        let [k0, k1, k2, k3] = four_keys(
            &opened,
            seed,
            tick,
            diasca,
            [a.recipient, b.recipient, c.recipient, d.recipient],
            [a.sender, b.sender, c.sender, d.sender],
            [a.serial, b.serial, c.serial, d.serial],
        );
        keys.push_reserved(k0);
        keys.push_reserved(k1);
        keys.push_reserved(k2);
        keys.push_reserved(k3);
    }
    put_rest(keys, &opened, seed, tick, diasca, letters, 4 * fours);
}

/// The keys of the last letters, of which there are fewer than four. Four lanes cost less than two keys
/// one by one, so the lanes that are left over do the last letter again.
fn put_rest(
    keys: &mut Vec<Key>,
    opened: &[u32x4; 8],
    seed: u64,
    tick: u64,
    diasca: u32,
    letters: &[LetterName],
    at: usize,
)
    requires opened { IsOpened seed tick diasca opened.now }
    requires from { at ≤ length letters.now }
    requires few { length letters.now < at + 4 }
    requires room { vec_len keys.old + (length letters.now - at) ≤ vec_capacity keys.old }
    ensures { keys.new.items ≡ keys.old.items ++ map (key_of seed tick diasca) (drop at letters.now) }
{
    let left = letters.len() - at;
    if left < 2 {
        put_each(keys, seed, tick, diasca, &letters[at..]);
        return;
    }
    let a = letters[at];
    let b = letters[at + 1];
    let c = letters[letters.len() - 1];
    let [k0, k1, k2, _] = four_keys(
        opened,
        seed,
        tick,
        diasca,
        [a.recipient, b.recipient, c.recipient, c.recipient],
        [a.sender, b.sender, c.sender, c.sender],
        [a.serial, b.serial, c.serial, c.serial],
    );
    keys.push_reserved(k0);
    keys.push_reserved(k1);
    if left == 3 {
        keys.push_reserved(k2);
    }
}
