ghost use Rattle.std.specs.Prelude.{◌≡◌, ◌<◌, ◌≤◌, IfOk};
ghost use Rattle.quiet_core.specs.Account.{managers};
ghost use Rattle.quiet_core.specs.Balance.{Sized};
ghost use Rattle.quiet_core.specs.Opening.{Leafy, Opening, Somebody};

use crate::frame::Frame;
use sim_base::Memory;

// The words of the leaves; all others are 0.
fn leaf_words(mut words: Vec<u64>, frame: &Frame) -> Result<Vec<u64>, Memory>
    requires { Sized frame.now }
    ensures { IfOk result (λ words. Leafy frame.now (managers frame.now) words.items) }
{
    words.clear();
    words.resize(frame.word_count(), 0)?;
    for m in 0..frame.managers() {
        words[m] = frame.scheduled(m as u32) as u64;
    }
    Ok(words)
}

/// The words of a round at its opening: at a leaf the number of its scheduled actors, at every node
/// above the number of its children whose word isn't 0, and 0 elsewhere. They take the place of the
/// words that are handed in, and memory only where these have no room for them. Err is want of memory.
pub fn opening_words(words: Vec<u64>, frame: &Frame) -> Result<Vec<u64>, Memory>
    requires sized { Sized frame.now }
    requires somebody { Somebody frame.now }
    ensures { IfOk result (λ words. Opening frame.now words.items) }
{
    let mut words = leaf_words(words, frame)?;
    for child in 0..frame.root() {
        let one = words[child].min(1);
        let parent = frame.parent(child as u32) as usize;
        let sum = words[parent] + one;
        words[parent] = sum;
    }
    Ok(words)
}
