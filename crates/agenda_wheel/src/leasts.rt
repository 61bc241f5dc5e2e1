ghost use Rattle.std.specs.Prelude.{◌≡◌, ◌≢◌, ◌<◌, ◌≤◌, ◌%◌, ℕ, true, false, Some, None, length, slice_index_or, slice_set};
ghost use Rattle.agenda.specs.Dues.{least};
ghost use Rattle.agenda_wheel.specs.Kept.{in_bucket, KeepsLeasts};
ghost use Rattle.agenda_wheel.specs.Nodes.{nil};
ghost use Rattle.agenda_wheel.specs.Seen.{lesser as lesser_of};
ghost use Rattle.agenda_wheel.specs.Slots.{sorted, Distinct};
ghost use Rattle.agenda_wheel.specs.Wheel.{bucket, pairs_of, ByTick};

use crate::levels::Leasts;
use crate::links::Node;
use crate::walks::{bucket_of, least_in};
use agenda::Due;

/// A pair more in its bucket.
pub(crate) fn note(leasts: &mut Leasts, due: Due)
    requires { length leasts.old ≡ 1024 }
    ensures { leasts.new ≡ slice_set leasts.old (bucket due) (lesser_of (slice_index_or leasts.old (bucket due) None) (Some due.tick)) }
{
    leasts.note(bucket_of(due.tick), due.tick);
}

/// Whether a bucket has the tick as its least.
pub(crate) fn is_least(leasts: &Leasts, tick: u64) -> bool
    requires { length leasts.now ≡ 1024 }
    ensures there { result ≡ true → slice_index_or leasts.now (tick % 1024) None ≡ Some tick }
    ensures other { result ≡ false → slice_index_or leasts.now (tick % 1024) None ≢ Some tick }
{
    match leasts.get(bucket_of(tick)) {
        Some(least) => least == tick,
        None => false,
    }
}

/// The least tick of a bucket is found anew, where all others are right.
pub(crate) fn renew(nodes: &[Node], ticks: &[u32], leasts: &mut Leasts, bucket: usize)
    requires linked { ByTick nodes.now ticks.now }
    requires small { length nodes.now ≤ nil }
    requires wheel { length ticks.now ≡ 1024 }
    requires apart { Distinct (pairs_of nodes.now) }
    requires inside { bucket < 1024 }
    requires size { length leasts.old ≡ 1024 }
    requires others { (b : ℕ) → b < 1024 → b ≢ bucket → slice_index_or leasts.old b None ≡ least (in_bucket b (sorted (pairs_of nodes.now))) }
    ensures { KeepsLeasts (sorted (pairs_of nodes.now)) leasts.new }
{
    leasts.renew(bucket, least_in(nodes, ticks, bucket));
}

/// A pair has left its bucket: where it was the least, the least is found anew.
pub(crate) fn leave(nodes: &[Node], ticks: &[u32], leasts: &mut Leasts, due: Due)
    requires linked { ByTick nodes.now ticks.now }
    requires small { length nodes.now ≤ nil }
    requires wheel { length ticks.now ≡ 1024 }
    requires apart { Distinct (pairs_of nodes.now) }
    requires size { length leasts.old ≡ 1024 }
    requires others { (b : ℕ) → b < 1024 → b ≢ bucket due → slice_index_or leasts.old b None ≡ least (in_bucket b (sorted (pairs_of nodes.now))) }
    requires later { slice_index_or leasts.old (bucket due) None ≢ Some due.tick
        → slice_index_or leasts.old (bucket due) None ≡ least (in_bucket (bucket due) (sorted (pairs_of nodes.now))) }
    ensures { KeepsLeasts (sorted (pairs_of nodes.now)) leasts.new }
{
    if !is_least(leasts, due.tick) {
        return;
    }
    renew(nodes, ticks, leasts, bucket_of(due.tick));
}
