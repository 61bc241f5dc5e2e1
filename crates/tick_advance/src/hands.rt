ghost use Rattle.std.specs.Prelude.{◌≤◌};

/// How many scheduled actors one more hand pays for: threads are started and joined in both phases, and
/// what they made is put together. `bench/hands` sets the number.
const ACTORS_A_HAND: usize = 4096;

/// How many hands work at a moment, 1 to the number of workers. At the first moment with somebody
/// scheduled as many as there are workers, at most one an actor; later as many as the work pays for.
pub(crate) fn hands_for(workers: u32, scheduled: usize, is_first: bool) -> u32
    requires some { 1 ≤ workers }
    ensures least { 1 ≤ result }
    ensures most { result ≤ workers }
{
    let paid = if is_first {
        scheduled
    } else {
        scheduled / ACTORS_A_HAND
    };
    if paid >= workers as usize {
        workers
    } else {
        (paid as u32).max(1)
    }
}
