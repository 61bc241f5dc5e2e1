ghost use Rattle.std.specs.Prelude.{◌≡◌, ◌++◌, ◌+◌, ◌<◌, List, [], drop, length, map, IfOk, OnErr, OnOk};
ghost use Rattle.std.specs.List.{AllPairs, flat_map};
ghost use Rattle.sim_base.specs.declared.moment.Moment.{Moment};
ghost use Rattle.sim_base.specs.declared.moment.Row.{Row};
ghost use Rattle.sim_model.specs.Moment.{rows_of};
ghost use Rattle.sim_model.specs.Whole.{IsEarlier};
ghost use Rattle.local_manager.specs.Views.{managers_of};
ghost use Rattle.tick_advance.specs.Log.{EndsBefore, EndsBelow, HasRows, kept, log_of, no_log};

use actor_trait::Actor;
use agenda::Agenda;
use local_manager::World;
use probes::{Buffer, Sieve, merge};
use sim_base::{Items, Memory, Moment, Row};
use sim_model::Report;
use std::alloc::Global;
use std::marker::Model;

/// The rows of a run that a sieve keeps: a buffer for each manager, and those that are merged already.
#[derive(Drop)]
pub(crate) struct Log<S: Sieve> {
    alloc: Global,
    merged: Vec<Row>,
    buffers: Vec<Buffer>,
    /// How many of the merged rows were given out.
    given: usize,
    sieve: S,
}

impl<S: Sieve> Model for Log<S> {
    ghost use Rattle.std.specs.Prelude.{◌≤◌, length};
    ghost use Rattle.tick_advance.specs.Log.{SievedLog};

    ghost Value = { SievedLog S };

    ghost view = { λ l. record { merged = l.merged.items; buffers = l.buffers.items; given = l.given; sieve = l.sieve } };

    ghost invariant = { λ l. l.given ≤ length l.merged.items };
}

impl<S: Sieve + Drop> Log<S> {
    /// No row yet, for so many managers. Err is want of memory.
    pub fn new(alloc: Global, managers: u32, sieve: S) -> Result<Log<S>, Memory>
        ensures { IfOk result (λ l. log_of S.keeps l ≡ no_log managers (S.keeps sieve)) }
    {
        let mut buffers = Vec::with_capacity(alloc, managers as usize)?;
        for _m in 0..managers {
            buffers.push(Buffer::new(alloc))?;
        }
        Ok(Log {
            alloc,
            merged: Vec::new(alloc),
            buffers,
            given: 0,
            sieve,
        })
    }

    /// Adds what is kept of what actors sampled at a moment, each to the buffer of its manager. Err is want of memory;
    /// some may be added then.
    pub fn add<A: Actor + Drop, G: Agenda + Drop>(
        &mut self,
        at: Moment,
        reports: &[Report<A>],
        world: &World<A, G>,
    ) -> Result<(), Memory>
        requires later { EndsBefore (log_of S.keeps self.old) at }
        requires managers { length self.old.buffers ≡ managers_of world.now }
        requires ascending { AllPairs (λ r q. r.id.0 < q.id.0) reports.now }
        ensures rows { OnOk result ((rows : List Row) → HasRows (log_of S.keeps self.old) rows → HasRows (log_of S.keeps self.new) (rows ++ flat_map (rows_of at) reports.now)) }
        ensures later { OnOk result ((next : Moment) → IsEarlier at next → EndsBefore (log_of S.keeps self.new) next) }
        ensures managers { length self.new.buffers ≡ length self.old.buffers }
        ensures given { self.new.given ≡ self.old.given }
        ensures keeps { S.keeps self.new.sieve ≡ S.keeps self.old.sieve }
    {
        for report in reports {
            if report.outcome.samples.is_empty() {
                continue;
            }
            let manager = world.route(report.id).0 as usize;
            self.add_report(manager, at, report)?;
        }
        Ok(())
    }

    /// Adds what is kept of what an actor sampled at a moment to the buffer of its manager; for nothing it
    /// takes no memory. Err is want of memory, and changes nothing.
    fn add_report<A>(
        &mut self,
        manager: usize,
        at: Moment,
        report: &Report<A>,
    ) -> Result<(), Memory>
        requires manager { manager < length self.old.buffers }
        requires later { EndsBelow (log_of S.keeps self.old) at report.now.id.0 }
        ensures rows { OnOk result ((rows : List Row) → HasRows (log_of S.keeps self.old) rows → HasRows (log_of S.keeps self.new) (rows ++ rows_of at report.now)) }
        ensures later { EndsBelow (log_of S.keeps self.new) at (report.now.id.0 + 1) }
        ensures managers { length self.new.buffers ≡ length self.old.buffers }
        ensures given { self.new.given ≡ self.old.given }
        ensures keeps { S.keeps self.new.sieve ≡ S.keeps self.old.sieve }
    {
        let samples = report.outcome.samples.as_slice();
        self.buffers[manager].add_kept(at, report.id, samples, &self.sieve)
    }

    /// Merges the buffers behind what is merged already, and empties them. The rows of a lone buffer
    /// become the merged ones where there is none yet, uncopied. Err is want of memory, and changes nothing.
    fn merge(&mut self) -> Result<(), Memory>
        ensures rows { OnOk result ((rows : List Row) → HasRows (log_of S.keeps self.old) rows → self.new.merged ≡ kept (log_of S.keeps self.old) rows) }
        ensures buffers { OnOk result (self.new.buffers ≡ map (λ _. []) self.old.buffers) }
        ensures given { self.new.given ≡ self.old.given }
        ensures keeps { S.keeps self.new.sieve ≡ S.keeps self.old.sieve }
        ensures err { OnErr result (self.new ≡ self.old) }
    {
        if self.merged.is_empty() && self.buffers.len() == 1 {
            self.merged = self.buffers[0].take(self.alloc).into_vec();
            return Ok(());
        }
        let rows = merge(self.alloc, &self.buffers)?;
        append(&mut self.merged, rows)?;
        clear_all(&mut self.buffers);
        Ok(())
    }

    /// The kept rows that weren't given out yet, which are given out now. Err is want of memory; none is given
    /// out then.
    pub fn fresh(&mut self) -> Result<Items<Row>, Memory>
        ensures fresh { IfOk result (λ fresh. (rows : List Row) → HasRows (log_of S.keeps self.old) rows → fresh ≡ drop self.old.given (kept (log_of S.keeps self.old) rows)) }
        ensures rows { (rows : List Row) → HasRows (log_of S.keeps self.old) rows → HasRows (log_of S.keeps self.new) rows }
        ensures given { OnOk result ((rows : List Row) → HasRows (log_of S.keeps self.old) rows → self.new.given ≡ length (kept (log_of S.keeps self.old) rows)) }
        ensures later { (at : Moment) → EndsBefore (log_of S.keeps self.old) at → EndsBefore (log_of S.keeps self.new) at }
        ensures managers { length self.new.buffers ≡ length self.old.buffers }
        ensures keeps { S.keeps self.new.sieve ≡ S.keeps self.old.sieve }
        ensures err { OnErr result (self.new.given ≡ self.old.given) }
    {
        self.merge()?;
        let fresh = self.merged[self.given..].to_vec(self.alloc)?;
        self.given = self.merged.len();
        Ok(Items::of(fresh))
    }

    /// All kept rows. What one buffer alone has isn't copied where nothing was merged before. Err is want of
    /// memory.
    pub fn into_rows(self) -> Result<Items<Row>, Memory>
        ensures { IfOk result (λ all. (rows : List Row) → HasRows (log_of S.keeps self) rows → all ≡ kept (log_of S.keeps self) rows) }
    {
        let mut log = self;
        log.merge()?;
        let Log { merged, .. } = log;
        Ok(Items::of(merged))
    }
}

/// Appends rows; where there is none yet, they are taken as they are. Err is want of memory, and changes
/// nothing.
fn append(into: &mut Vec<Row>, rows: Items<Row>) -> Result<(), Memory>
    ensures ok { OnOk result (into.new.items ≡ into.old.items ++ rows) }
    ensures err { OnErr result (into.new.items ≡ into.old.items) }
{
    if into.is_empty() {
        *into = rows.into_vec();
        return Ok(());
    }
    into.extend_from_slice(rows.as_slice())?;
    Ok(())
}

/// Empties all buffers, and keeps their room.
fn clear_all(buffers: &mut [Buffer])
    ensures { buffers.new ≡ map (λ _. []) buffers.old }
{
    for buffer in buffers {
        buffer.clear();
    }
}
