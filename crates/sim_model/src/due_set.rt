ghost use Rattle.std.specs.Prelude.{◌≡◌, ◌++◌, [], not, OnOk};
ghost use Rattle.std.specs.List.{filter};
ghost use Rattle.sim_model.specs.Moment.{is_among};
ghost use Rattle.sim_model.specs.Setups.{Ascend};

use crate::ids::contains;
use agenda::Due;
use sim_base::{ActorId, Memory};
use std::alloc::Global;
use std::collections::BTreeSet;
use std::marker::Model;

/// Who asked for which tick. Contracts see one list, ascending by tick and then by actor, with
/// nothing twice.
#[derive(Drop)]
pub struct DueSet {
    dues: BTreeSet<Due>,
}

impl Model for DueSet {
    ghost use Rattle.std.specs.Prelude.{List};
    ghost use Rattle.agenda.specs.declared.due.Due.{Due};

    ghost Value = { List Due };

    ghost view = { λ a. a.dues.keys };
}

impl DueSet {
    ghost use Rattle.agenda.specs.Dues.{add_due, due_at, least, without_tick};
    ghost use Rattle.sim_model.specs.Stepping.{RisesFrom, first_at, rest_at};

    /// Nobody asked for a tick.
    pub(crate) fn new(alloc: Global) -> DueSet
        ensures { result ≡ [] }
    {
        DueSet {
            dues: BTreeSet::new(alloc),
        }
    }

    /// Adds what is due; what is there already changes nothing.
    pub(crate) fn add(&mut self, due: Due) -> Result<(), Memory>
        ensures { OnOk result (self.new ≡ add_due due self.old) }
    {
        self.dues.insert(due)?;
        Ok(())
    }

    /// The least tick that somebody asked for.
    pub(crate) fn least(&self) -> Option<u64>
        ensures { result ≡ least self.now }
    {
        self.dues.first().map(|due| due.tick)
    }

    /// Takes out the first that is due, if its tick is this one.
    fn take_first_at(&mut self, tick: u64) -> Option<ActorId>
        ensures actor { result ≡ first_at tick self.old }
        ensures rest { self.new ≡ rest_at tick self.old }
    {
        match self.dues.first() {
            Some(due) if due.tick == tick => {}
            _ => return None,
        }
        self.dues.pop_first().map(|due| due.actor)
    }

    /// Takes out all that is due at a tick, where no earlier one is left, and adds the actors to these ids.
    pub(crate) fn take(&mut self, ids: &mut Vec<ActorId>, tick: u64) -> Result<(), Memory>
        requires { RisesFrom tick self.old }
        ensures ids { OnOk result (ids.new.items ≡ ids.old.items ++ due_at tick self.old) }
        ensures rest { OnOk result (self.new ≡ without_tick tick self.old) }
    {
        while let Some(actor) = self.take_first_at(tick) {
            ids.push(actor)?;
        }
        Ok(())
    }

    /// Takes out all that these actors asked for: a pass over all of it only where there are any.
    pub(crate) fn drop_all(&mut self, actors: &[ActorId])
        requires { Ascend actors.now }
        ensures { self.new ≡ filter (λ d. not (is_among actors.now d.actor)) self.old }
    {
        drop_dues(&mut self.dues, actors);
    }
}

/// Takes out all that is due for these actors.
fn drop_dues(dues: &mut BTreeSet<Due>, actors: &[ActorId])
    requires { Ascend actors.now }
    ensures { dues.new.keys ≡ filter (λ d. not (is_among actors.now d.actor)) dues.old.keys }
{
    if actors.is_empty() {
        return;
    }
    dues.retain(|due| !contains(actors, due.actor));
}
