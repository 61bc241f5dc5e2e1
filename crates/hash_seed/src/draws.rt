ghost use Rattle.std.specs.Prelude.{◌≡◌, ◌<◌, ◌≤◌};
ghost use Rattle.hash_seed.specs.Draws.{draw};

use sha2::{Digest, Sha256};

/// The byte that ends what a draw hashes: the letter D.
const DRAW_MARK: u8 = 0x44;

/// Draw `k` of an actor at a tick and a diasca, under a seed: a number from 0 to `bound` - 1. It is
/// the front of a SHA-256 digest modulo the bound, and depends on nothing else: which draws were
/// made before, and by whom, doesn't change it.
pub fn draw(seed: u64, tick: u64, diasca: u32, actor: u32, k: u32, bound: u64) -> u64
    requires { 1 ≤ bound }
    ensures value { result ≡ draw seed tick diasca actor k bound }
    ensures below { result < bound }
{
    let mut hasher = Sha256::new();
    hasher.update(seed.to_be_bytes());
    hasher.update(tick.to_be_bytes());
    hasher.update(diasca.to_be_bytes());
    hasher.update(actor.to_be_bytes());
    hasher.update(k.to_be_bytes());
    hasher.update([DRAW_MARK]);
    let digest = hasher.finalize();
    let mut first = [0u8; 8];
    first.copy_from_slice(&digest[..8]);
    u64::from_be_bytes(first) % bound
}
