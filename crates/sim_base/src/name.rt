ghost use Rattle.std.specs.Prelude.{◌≡◌, ◌++◌, true, length, ◌≤◌};
ghost use Rattle.std.specs.List.{list_all};
ghost use Rattle.sim_base.specs.Names.{born_name, is_name, is_name_byte, is_word, name_of};

use crate::ActorId;
use itoa::Buffer;
use std::marker::Model;

const MOST: usize = 32;

/// The name of an actor: 1 to 32 bytes, kept in place. Contracts see the list of its bytes.
#[derive(Clone, Copy, PartialEq, Eq)]
pub struct Name {
    bytes: [u8; MOST],
    len: usize,
}

impl Model for Name {
    ghost use Rattle.std.specs.Prelude.{◌≡◌, ◌-◌, ◌++◌, ◌≤◌, List, ℕ, drop, length, replicate, take};

    ghost Value = { List ℕ };

    ghost view = { λ n. take n.len n.bytes };

    ghost invariant = { λ n. (1 ≤ n.len) × (n.len ≤ 32) × (length n.bytes ≡ 32) × (drop n.len n.bytes ≡ replicate (32 - n.len) 0) };

    ghost inverse = { λ bytes. record { bytes = bytes ++ replicate (32 - length bytes) 0; len = length bytes } };

    ghost use Rattle.sim_base.specs.NameBytes.{fields_back};

    ghost inverse_ok = { fields_back };
}

fn is_in_name(byte: u8) -> bool
    ensures { result ≡ is_name_byte byte }
{
    (byte >= b'a' && byte <= b'z') || (byte >= b'0' && byte <= b'9') || byte == b'_'
}

fn are_in_name(bytes: &[u8]) -> bool
    ensures { result ≡ list_all is_name_byte bytes.now }
{
    bytes.iter().all(|byte| is_in_name(*byte))
}

fn is_valid(bytes: &[u8]) -> bool
    ensures { result ≡ is_name bytes.now }
{
    1 <= bytes.len() && bytes.len() <= MOST && are_in_name(bytes)
}

fn of_bytes(bytes: &[u8]) -> Name
    requires least { 1 ≤ length bytes.now }
    requires most { length bytes.now ≤ 32 }
    ensures { result ≡ bytes.now }
{
    let mut place = [0; MOST];
    place[..bytes.len()].copy_from_slice(bytes);
    Name {
        bytes: place,
        len: bytes.len(),
    }
}

impl Name {
    /// A name that a scenario gives: None exactly where the bytes aren't 1 to 32 of `a` to `z`,
    /// `0` to `9` and `_`.
    pub fn read(bytes: &[u8]) -> Option<Name>
        ensures { result ≡ name_of bytes.now }
    {
        if is_valid(bytes) {
            Some(of_bytes(bytes))
        } else {
            None
        }
    }

    /// The name of a kind or a probe: 1 to 20 of the characters of a name.
    pub fn word(text: &str) -> Name
        requires { is_word text.now ≡ true }
        ensures { result ≡ text.now }
    {
        of_bytes(text.as_bytes())
    }

    /// The name of an actor that is born during a run: `<kind>-<id>`. A kind is 1 to 20 of the
    /// characters of a name.
    pub fn born(kind: &str, id: ActorId) -> Name
        requires { is_word kind.now ≡ true }
        ensures { result ≡ born_name kind.now id }
    {
        let mut buffer = Buffer::new();
        let number = buffer.format(id.0).as_bytes();
        let dash = kind.len();
        let end = dash + 1 + number.len();
        let mut place = [0; MOST];
        place[..dash].copy_from_slice(kind.as_bytes());
        place[dash] = b'-';
        place[dash + 1..end].copy_from_slice(number);
        of_bytes(&place[..end])
    }

    /// The bytes of the name, 1 to 32.
    pub fn as_bytes(&self) -> &[u8]
        ensures bytes { result.now ≡ self.now }
        ensures least { 1 ≤ length result.now }
        ensures most { length result.now ≤ 32 }
    {
        &self.bytes[..self.len]
    }
}
