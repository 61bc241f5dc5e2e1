ghost use Rattle.std.specs.Prelude.{◌≡◌, ◌+◌, ◌<◌, ◌≤◌, List, ℕ, Option, length, IfOk, IsErrOf, OnOk};
ghost use Rattle.std.specs.Io.KnownBytes.{Consumes, IsAtEnd};
ghost use Rattle.sim_base.specs.Outside.{one_more, TakeCause, TakesAtMost, TakesExactly, TakesFrom, TakesWithin};

use crate::Items;
use std::alloc::Global;

/// What one call of `take` came to.
#[derive(Clone, Copy, Debug, PartialEq, Eq)]
pub enum Taken {
    /// So many bytes were taken. None is the end.
    Bytes(usize),
    /// The source failed, and nothing was taken.
    Failed,
}

/// Where bytes come from.
pub trait Source {
    /// The bytes that are left, where the source tells them.
    ghost left: { Self → Option (List ℕ) };

    /// How often it has failed; the count stands still at the end of u64, and rises at a failure alone.
    ghost faults: { Self → ℕ };

    /// Takes some of the bytes that are left, to the front of `into`.
    fn take(&mut self, into: &mut [u8]) -> Taken
        requires { 0 < length into.old }
        ensures count { TakesAtMost result into.new }
        ensures bytes { TakesFrom (left self.old) (left self.new) result into.new }
        ensures cause { TakeCause (faults self.old) (faults self.new) result };
}

/// Why not all of a source was read.
#[derive(Clone, Copy, Debug, PartialEq, Eq)]
pub enum ReadFault {
    /// The source failed. It has lost the bytes that were taken before, at most as many as the limit.
    Fault,
    /// It has more bytes than the limit, and has lost one more than that.
    TooLong,
    /// Want of memory. It has lost the bytes that were taken before, at most one more than the limit.
    Memory,
}

const PIECE: usize = 4096;

/// All that a source has left, read to its end, if that isn't more than the limit.
pub fn read_all<S: Source>(
    alloc: Global,
    source: &mut S,
    limit: usize,
) -> Result<Items<u8>, ReadFault>
    ensures all { IfOk result (λ all. Consumes (S.left source.old) (S.left source.new) all) }
    ensures to_the_end { IfOk result (λ _. IsAtEnd (S.left source.new)) }
    ensures within { IfOk result (λ all. length all ≤ limit) }
    ensures no_fault { OnOk result (S.faults source.new ≡ S.faults source.old) }
    ensures fault { IsErrOf result ReadFault.Fault → S.faults source.new ≡ one_more (S.faults source.old) }
    ensures fault_within { IsErrOf result ReadFault.Fault → TakesWithin (S.left source.old) (S.left source.new) limit }
    ensures too_long { IsErrOf result ReadFault.TooLong → TakesExactly (S.left source.old) (S.left source.new) (limit + 1) }
    ensures too_long_no_fault { IsErrOf result ReadFault.TooLong → S.faults source.new ≡ S.faults source.old }
    ensures memory_within { IsErrOf result ReadFault.Memory → TakesWithin (S.left source.old) (S.left source.new) (limit + 1) }
    ensures memory_no_fault { IsErrOf result ReadFault.Memory → S.faults source.new ≡ S.faults source.old }
    ensures later { S.faults source.old ≤ S.faults source.new }
{
    let mut all = Vec::new(alloc);
    let mut piece = [0u8; PIECE];
    while all.len() <= limit {
        let room = (limit - all.len()).min(PIECE - 1) + 1;
        match source.take(&mut piece[..room]) {
            Taken::Failed => return Err(ReadFault::Fault),
            Taken::Bytes(0) => return Ok(Items::of(all)),
            Taken::Bytes(n) => {
                if all.extend_from_slice(&piece[..n]).is_err() {
                    return Err(ReadFault::Memory);
                }
            }
        }
    }
    Err(ReadFault::TooLong)
}
