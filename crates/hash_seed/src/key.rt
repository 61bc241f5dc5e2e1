ghost use Rattle.std.specs.Prelude.{◌≡◌};
ghost use Rattle.hash_seed.specs.Keys.{letter_key};

use sha2::{Digest, Sha256};

/// The key of a letter: a SHA-256 digest. Keys are ordered as bytes, the first byte first.
#[derive(Clone, Copy, Debug, PartialEq, Eq, PartialOrd, Ord)]
pub struct Key(pub [u8; 32]);

/// The key of a letter that `sender` sent to `recipient` at a tick and a diasca, under a seed. The
/// serial is the letter's position, from 0, in the sender's list of sends at that moment.
pub fn letter_key(
    seed: u64,
    tick: u64,
    diasca: u32,
    recipient: u32,
    sender: u32,
    serial: u32,
) -> Key
    ensures { result ≡ letter_key seed tick diasca recipient sender serial }
{
    let mut hasher = Sha256::new();
    hasher.update(seed.to_be_bytes());
    hasher.update(tick.to_be_bytes());
    hasher.update(diasca.to_be_bytes());
    hasher.update(recipient.to_be_bytes());
    hasher.update(sender.to_be_bytes());
    hasher.update(serial.to_be_bytes());
    Key(hasher.finalize())
}
