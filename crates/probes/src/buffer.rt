ghost use Rattle.std.specs.Prelude.{◌≡◌, ◌++◌, [], false, map, IsTrue, OnOk, OnErr};
ghost use Rattle.std.specs.List.Sorted.{IsSortedBy};
ghost use Rattle.probes.specs.LiveOrder.{comes_before, ends_before, row_of};
ghost use Rattle.probes.specs.Kept.{kept_by};

use crate::Sieve;
use crate::order::is_before;
use actor_trait::Sample;
use sim_base::{ActorId, Items, Memory, Moment, Row};
use std::alloc::Global;
use std::marker::Model;
use std::mem;

/// Rows that rise by moment, then by actor. Contracts see the list of them.
#[derive(Drop)]
pub struct Buffer {
    rows: Vec<Row>,
}

impl Model for Buffer {
    ghost use Rattle.std.specs.Prelude.{List};
    ghost use Rattle.std.specs.List.Sorted.{IsSortedBy};
    ghost use Rattle.sim_base.specs.declared.moment.Row.{Row};
    ghost use Rattle.probes.specs.LiveOrder.{comes_before};

    ghost Value = { List Row };

    ghost view = { λ b. b.rows.items };

    ghost invariant = { λ b. IsSortedBy comes_before b.rows.items };
}

impl Buffer {
    /// The buffer without rows. It takes no memory, and grows by this allocator.
    pub fn new(alloc: Global) -> Buffer
        ensures { result ≡ [] }
    {
        Buffer {
            rows: Vec::new(alloc),
        }
    }

    /// The rows, in live order.
    pub fn as_slice(&self) -> &[Row]
        ensures rows { result.now ≡ self.now }
        ensures live { IsSortedBy comes_before result.now }
    {
        self.rows.as_slice()
    }

    /// Lets all rows go, and keeps their room.
    pub fn clear(&mut self)
        ensures { self.new ≡ [] }
    {
        self.rows.clear();
    }

    /// Hands all rows out, uncopied, with their room. What is added later takes memory anew.
    pub fn take(&mut self, alloc: Global) -> Items<Row>
        ensures rows { result ≡ self.old }
        ensures none { self.new ≡ [] }
        ensures live { IsSortedBy comes_before result }
    {
        Items::of(mem::replace(&mut self.rows, Vec::new(alloc)))
    }

    /// Whether the last row is of an earlier moment, or of the same one and a lesser actor; also where
    /// there is no row. Then the samples of this actor's event can be added.
    pub fn ends_before(&self, at: Moment, id: ActorId) -> bool
        ensures { result ≡ ends_before self.now at id }
    {
        match self.rows.last() {
            Some(row) => is_before(row, at, id),
            None => true,
        }
    }

    /// Appends what an actor sampled at a moment, in order; for no samples it takes no memory. Err is
    /// want of memory, and changes nothing.
    pub fn add(&mut self, at: Moment, id: ActorId, samples: &[Sample]) -> Result<(), Memory>
        requires { IsTrue (ends_before self.old at id) }
        ensures ok { OnOk result (self.new ≡ self.old ++ map (row_of at id) samples.now) }
        ensures err { OnErr result (self.new ≡ self.old) }
    {
        append(&mut self.rows, at, id, samples)
    }

    /// Appends what a sieve keeps of what an actor sampled at a moment, in order; where it keeps nothing
    /// it takes no memory. Err is want of memory, and changes nothing.
    pub fn add_kept<S: Sieve>(
        &mut self,
        at: Moment,
        id: ActorId,
        samples: &[Sample],
        sieve: &S,
    ) -> Result<(), Memory>
        requires { IsTrue (ends_before self.old at id) }
        ensures ok { OnOk result (self.new ≡ self.old ++ map (row_of at id) (kept_by (S.keeps sieve.now) id samples.now)) }
        ensures err { OnErr result (self.new ≡ self.old) }
    {
        if keeps_any(sieve, id, samples) {
            append_kept(&mut self.rows, at, id, samples, sieve)
        } else {
            Ok(())
        }
    }
}

/// Whether a sieve keeps any of what an actor sampled.
fn keeps_any<S: Sieve>(sieve: &S, id: ActorId, samples: &[Sample]) -> bool
    ensures { result ≡ false → kept_by (S.keeps sieve.now) id samples.now ≡ [] }
{
    for sample in samples {
        if sieve.keeps(id, sample.probe) {
            return true;
        }
    }
    false
}

/// Appends the rows of an event that a sieve keeps.
fn append_kept<S: Sieve>(
    rows: &mut Vec<Row>,
    at: Moment,
    id: ActorId,
    samples: &[Sample],
    sieve: &S,
) -> Result<(), Memory>
    ensures ok { OnOk result (rows.new.items ≡ rows.old.items ++ map (row_of at id) (kept_by (S.keeps sieve.now) id samples.now)) }
    ensures err { OnErr result (rows.new.items ≡ rows.old.items) }
{
    rows.reserve(samples.len())?;
    for sample in samples {
        let Sample { probe, value } = *sample;
        if sieve.keeps(id, probe) {
            rows.push_reserved(Row {
                at,
                actor: id,
                probe,
                value,
            });
        }
    }
    Ok(())
}

/// Appends the rows of an event.
fn append(rows: &mut Vec<Row>, at: Moment, id: ActorId, samples: &[Sample]) -> Result<(), Memory>
    ensures ok { OnOk result (rows.new.items ≡ rows.old.items ++ map (row_of at id) samples.now) }
    ensures err { OnErr result (rows.new.items ≡ rows.old.items) }
{
    rows.reserve(samples.len())?;
    for sample in samples {
        rows.push_reserved(Row {
            at,
            actor: id,
            probe: sample.probe,
            value: sample.value,
        });
    }
    Ok(())
}
