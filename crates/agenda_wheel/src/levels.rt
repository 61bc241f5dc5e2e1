ghost use Rattle.std.specs.Prelude.{◌≡◌, ◌≢◌, ◌<◌, ℕ, true, false, Some, None, length, slice_index_or, slice_set, replicate, IfOk};
ghost use Rattle.agenda_wheel.specs.Groups.{in_group};
ghost use Rattle.agenda_wheel.specs.Seen.{lesser as lesser_of, LeastOf, IsLeastBelow};

use crate::growth::filled;
use crate::walks::{BUCKETS, lesser};
use std::alloc::{AllocError, Global};
use std::marker::Model;

/// How many neighbouring buckets are a group.
const GROUP: usize = 32;

/// The least tick of each bucket, on two levels: of each group of 32 neighbouring buckets the least
/// is kept too, so that the least of all is found among 32 numbers.
#[derive(Drop)]
pub(crate) struct Leasts {
    buckets: Vec<Option<u64>>,
    groups: Vec<Option<u64>>,
}

impl Model for Leasts {
    ghost use Rattle.std.specs.Prelude.{List, Option, ℕ};

    ghost Value = { List (Option ℕ) };

    ghost use Rattle.agenda_wheel.specs.Groups.{KeepsGroups};

    ghost view = { λ l. l.buckets.items };

    ghost invariant = { λ l. KeepsGroups l.buckets.items l.groups.items };
}

// A number becomes the lesser of itself and the tick.
fn lower(leasts: &mut [Option<u64>], at: usize, tick: Option<u64>)
    requires { at < length leasts.old }
    ensures { leasts.new ≡ slice_set leasts.old at (lesser_of (slice_index_or leasts.old at None) tick) }
{
    leasts[at] = lesser(leasts[at], tick);
}

// The least number of all.
fn least_of_all(leasts: &[Option<u64>]) -> Option<u64>
    ensures { IsLeastBelow leasts.now (length leasts.now) result }
{
    let mut least = None;
    for tick in leasts {
        least = lesser(least, *tick);
    }
    least
}

// The least number of a group.
fn least_of_group(buckets: &[Option<u64>], group: usize) -> Option<u64>
    requires size { length buckets.now ≡ 1024 }
    requires inside { group < 32 }
    ensures { LeastOf (in_group buckets.now group) 32 result }
{
    let start = group * GROUP;
    least_of_all(&buckets[start..start + GROUP])
}

// Whether a bucket's number was the least of its group.
fn was_least(was: Option<u64>, least: Option<u64>) -> bool
    ensures there { result ≡ true → was ≡ least }
    ensures other { result ≡ false → (t : ℕ) → was ≡ Some t → least ≢ Some t }
{
    match (was, least) {
        (Some(was), Some(least)) => was == least,
        _ => false,
    }
}

impl Leasts {
    /// No bucket has a tick.
    pub(crate) fn new(alloc: Global) -> Result<Self, AllocError>
        ensures { IfOk result (λ leasts. leasts ≡ replicate 1024 None) }
    {
        Ok(Leasts {
            buckets: filled(alloc, None, BUCKETS as usize)?,
            groups: filled(alloc, None, GROUP)?,
        })
    }

    /// The least tick of a bucket.
    pub(crate) fn get(&self, bucket: usize) -> Option<u64>
        requires { bucket < 1024 }
        ensures { result ≡ slice_index_or self.now bucket None }
    {
        self.buckets[bucket]
    }

    /// A tick joins a bucket.
    pub(crate) fn note(&mut self, bucket: usize, tick: u64)
        requires { bucket < 1024 }
        ensures { self.new ≡ slice_set self.old bucket (lesser_of (slice_index_or self.old bucket None) (Some tick)) }
    {
        lower(self.buckets.as_mut_slice(), bucket, Some(tick));
        lower(self.groups.as_mut_slice(), bucket / GROUP, Some(tick));
    }

    /// A bucket gets another least. Its group is gone through only where its least may be gone.
    pub(crate) fn renew(&mut self, bucket: usize, least: Option<u64>)
        requires { bucket < 1024 }
        ensures { self.new ≡ slice_set self.old bucket least }
    {
        let group = bucket / GROUP;
        let was = self.buckets[bucket];
        self.buckets[bucket] = least;
        if was_least(was, self.groups[group]) {
            self.groups[group] = least_of_group(self.buckets.as_slice(), group);
        } else {
            lower(self.groups.as_mut_slice(), group, least);
        }
    }

    /// The least tick of all buckets: the least of the groups'.
    pub(crate) fn least(&self) -> Option<u64>
        ensures { IsLeastBelow self.now (length self.now) result }
    {
        least_of_all(self.groups.as_slice())
    }
}
