ghost use Rattle.std.specs.Prelude.{◌≡◌, ◌-◌, ◌<◌, ◌==◌, true, length, slice_index};
ghost use Rattle.std.specs.List.{list_all};
ghost use Rattle.result_store.specs.Patterns.{matches, star};
ghost use Rattle.result_store.specs.Turns.{IsTurn};

use std::marker::Model;

const STAR: u8 = b'*';

/// The text that stands for a series: the actor's name, a point and the probe's name.
#[derive(Drop)]
pub(crate) struct SeriesName<'a> {
    pub(crate) actor: &'a [u8],
    pub(crate) probe: &'a [u8],
}

impl<'a> Model for SeriesName<'a> {
    ghost use Rattle.std.specs.Prelude.{List, ℕ};
    ghost use Rattle.result_store.specs.Patterns.{series_name};

    ghost Value = { List ℕ };

    ghost view = { λ s. series_name s.actor.now s.probe.now };
}

impl SeriesName<'_> {
    fn len(&self) -> usize
        ensures { result ≡ length self.now }
    {
        self.actor.len() + 1 + self.probe.len()
    }

    fn byte(&self, at: usize) -> u8
        requires { at < length self.now }
        ensures { result ≡ slice_index self.now at }
    {
        let point = self.actor.len();
        if at < point {
            self.actor[at]
        } else if at == point {
            b'.'
        } else {
            self.probe[at - point - 1]
        }
    }

    /// The last byte. There is one, since there is a point.
    fn last(&self) -> u8
        ensures { result ≡ slice_index self.now (length self.now - 1) }
    {
        self.byte(self.actor.len() + self.probe.len())
    }
}

/// What the pattern's next byte is to a byte of the text.
enum Turn {
    Star,
    Same,
    Apart,
}

fn turn_at(pattern: &[u8], at: usize, byte: u8) -> Turn
    ensures { IsTurn result pattern.now at byte }
{
    if at >= pattern.len() {
        return Turn::Apart;
    }
    if pattern[at] == STAR {
        return Turn::Star;
    }
    if pattern[at] == byte {
        return Turn::Same;
    }
    Turn::Apart
}

fn are_stars(pattern: &[u8]) -> bool
    ensures { result ≡ list_all (λ b. b == star) pattern.now }
{
    pattern.iter().all(|byte| *byte == STAR)
}

/// Whether a text ends as a pattern does, if not with a star: what doesn't can't match, and of most
/// series their last byte tells.
fn ends_alike(pattern: &[u8], text: &SeriesName<'_>) -> bool
    ensures { matches pattern.now text.now ≡ true → result ≡ true }
{
    if pattern.is_empty() {
        return true;
    }
    let last = pattern[pattern.len() - 1];
    last == STAR || text.last() == last
}

/// Whether a pattern matches a text. Where the rest doesn't match, only the last star takes a byte
/// more: it takes the bytes up to `taken`, and the pattern goes on at `after`, which is 0 before the
/// first star. So the steps are at most the product of the two lengths.
fn search(pattern: &[u8], text: &SeriesName<'_>) -> bool
    ensures { result ≡ matches pattern.now text.now }
{
    let mut at = 0;
    let mut read = 0;
    let mut after = 0;
    let mut taken = 0;
    'bytes: while read < text.len() {
        match turn_at(pattern, at, text.byte(read)) {
            Turn::Star => {
                at += 1;
                after = at;
                taken = read;
            }
            Turn::Same => {
                at += 1;
                read += 1;
            }
            Turn::Apart => {
                if after == 0 {
                    return false;
                }
                taken += 1;
                at = after;
                read = taken;
            }
        }
    }
    are_stars(&pattern[at..])
}

/// Whether a pattern matches a text.
pub(crate) fn matches(pattern: &[u8], text: &SeriesName<'_>) -> bool
    ensures { result ≡ matches pattern.now text.now }
{
    ends_alike(pattern, text) && search(pattern, text)
}
