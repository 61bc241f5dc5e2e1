ghost use Rattle.std.specs.Prelude.{◌≡◌, ◌+◌, ◌-◌, ◌<◌, ◌≤◌, [], length, replicate, IfOk, OnErr, OnOk};
ghost use Rattle.std.specs.List.Sorted.{IsPermutation};
ghost use Rattle.agenda.specs.Dues.{due_at, least, without_actor, without_tick};
ghost use Rattle.sim_model.specs.Moment.{ask};
ghost use Rattle.sim_model.specs.Setups.{Ascend};
ghost use Rattle.local_manager.specs.Directories.{AllBelow, AllPlaced, home_of, nobody, with_actor, without_load};
ghost use Rattle.local_manager.specs.Joined.{joined};
ghost use Rattle.local_manager.specs.Merged.{at_home};

use crate::Domain;
use crate::lists::{clear_all, count_items, earliest_of, empty_lists, home, share, take_all};
use agenda::Agenda;
use placement::{Policy, place};
use sim_base::{ActorId, Memory, Name, Roomy};
use std::alloc::Global;
use std::marker::Model;

/// All managers: what each keeps, who of its actors is scheduled, and who belongs to which. Contracts see
/// the one agenda, the one list of the scheduled, and how actors are placed.
#[derive(Drop)]
pub(crate) struct Directory<G: Agenda> {
    domains: Vec<Domain<G>>,
    lists: Vec<Roomy<ActorId>>,
    /// The manager of each actor, by number from 1.
    homes: Vec<u32>,
    /// How many living actors each manager has.
    loads: Vec<u32>,
}

impl<G: Agenda> Model for Directory<G> {
    ghost use Rattle.std.specs.Prelude.{map};
    ghost use Rattle.agenda.specs.Dues.{comes_before};
    ghost use Rattle.local_manager.specs.Directories.{Directed, Kept, id_before};
    ghost use Rattle.local_manager.specs.Merged.{union};

    ghost Value = { Directed };

    ghost view = { λ d. record {
      placed = record { homes = d.homes.items; loads = d.loads.items };
      agenda = union comes_before d.domains.items;
      scheduled = union id_before (map (λ r. r.list) d.lists.items);
    } };

    ghost invariant = { λ d. Kept d.homes.items d.loads.items d.domains.items (map (λ r. r.list) d.lists.items) };
}

impl<G: Agenda + Drop> Directory<G> {
    /// So many managers, and nobody yet. Err is want of memory.
    pub fn new(alloc: Global, managers: u32) -> Result<Directory<G>, Memory>
        requires some { 1 ≤ managers }
        requires few { managers ≤ 16 }
        ensures { IfOk result (λ d. d ≡ record { placed = nobody managers; agenda = []; scheduled = [] }) }
    {
        let managers = managers as usize;
        Ok(Directory {
            domains: empty_domains(alloc, managers)?,
            lists: empty_lists(alloc, managers)?,
            homes: Vec::new(alloc),
            loads: no_loads(alloc, managers)?,
        })
    }

    /// How many managers there are, 1 to 16. Their lists of the scheduled, one after the other, have
    /// each that is scheduled once.
    pub fn managers(&self) -> u32
        ensures count { result ≡ length self.now.placed.loads }
        ensures some { 1 ≤ result }
        ensures few { result ≤ 16 }
        ensures homes { AllBelow (length self.now.placed.loads) self.now.placed.homes }
        ensures parts { IsPermutation self.now.scheduled (joined (home_of self.now.placed.homes) (length self.now.placed.loads) self.now.scheduled) }
    {
        self.loads.len() as u32
    }

    /// The manager of an actor; of one that was never there the first or that of actor 1.
    pub fn home(&self, id: ActorId) -> u32
        ensures home { result ≡ home_of self.now.placed.homes id }
        ensures within { result < length self.now.placed.loads }
    {
        home(&self.homes, id)
    }

    /// Who of a manager's actors is scheduled, ascending.
    pub fn scheduled(&self, m: usize) -> &[ActorId]
        requires { m < length self.now.placed.loads }
        ensures { result.now ≡ at_home (home_of self.now.placed.homes) m self.now.scheduled }
    {
        self.lists[m].as_slice()
    }

    /// How many actors are scheduled.
    pub fn count_scheduled(&self) -> usize
        requires few { length self.now.scheduled ≤ 1000000 }
        ensures { result ≡ length self.now.scheduled }
    {
        count_items(&self.lists)
    }

    /// The least tick that an actor asked for.
    pub fn least(&self) -> Option<u64>
        ensures { result ≡ least self.now.agenda }
    {
        earliest_of(&self.domains)
    }

    /// Nobody is scheduled any more. It takes no memory.
    pub fn leave(&mut self)
        ensures { self.new ≡ record self.old { scheduled = [] } }
    {
        clear_all(&mut self.lists);
    }

    /// These are scheduled. Err is want of memory; nobody is scheduled then.
    pub fn schedule(&mut self, ids: &[ActorId]) -> Result<(), Memory>
        requires { Ascend ids.now }
        ensures ok { OnOk result (self.new ≡ record self.old { scheduled = ids.now }) }
        ensures err { OnErr result (self.new ≡ record self.old { scheduled = [] }) }
    {
        share(&mut self.lists, &self.homes, ids)?;
        Ok(())
    }

    /// Those that asked for a tick are scheduled, and the tick leaves the agendas. Err is want of memory;
    /// nobody is scheduled then, and the agendas are as they were.
    pub fn take_tick(&mut self, tick: u64) -> Result<(), Memory>
        ensures ok { OnOk result (self.new ≡ record self.old { agenda = without_tick tick self.old.agenda; scheduled = due_at tick self.old.agenda }) }
        ensures err { OnErr result (self.new ≡ record self.old { scheduled = [] }) }
    {
        take_all(&mut self.domains, &mut self.lists, tick)?;
        Ok(())
    }

    /// An actor asks for ticks. Err is want of memory, and changes nothing.
    pub fn ask(&mut self, id: ActorId, ticks: &[u64]) -> Result<(), Memory>
        ensures ok { OnOk result (self.new ≡ record self.old { agenda = ask id self.old.agenda ticks.now }) }
        ensures err { OnErr result (self.new ≡ self.old) }
    {
        if ticks.is_empty() {
            return Ok(());
        }
        let m = home(&self.homes, id) as usize;
        self.domains[m].ask(id, ticks)
    }

    /// An actor is gone, with all that it asked for.
    pub fn retire(&mut self, id: ActorId)
        ensures { self.new ≡ record self.old { placed = without_load self.old.placed id; agenda = without_actor id self.old.agenda } }
    {
        let m = home(&self.homes, id) as usize;
        self.domains[m].retire(id);
        self.loads[m] = self.loads[m].saturating_sub(1);
    }

    /// One more actor, which the policy places; nobody is scheduled then. Err is want of memory, and
    /// changes nothing.
    pub fn admit(&mut self, policy: Policy, id: ActorId, name: &Name) -> Result<(), Memory>
        requires next { id.0 ≡ length self.old.placed.homes + 1 }
        requires room { length self.old.placed.homes < 1000000 }
        requires idle { self.old.scheduled ≡ [] }
        requires known { AllPlaced (λ d. d.actor) (length self.old.placed.homes) self.old.agenda }
        ensures ok { OnOk result (self.new ≡ record self.old { placed = with_actor policy self.old.placed id name.now }) }
        ensures err { OnErr result (self.new ≡ self.old) }
    {
        let home = place(policy, id, name, &self.loads).0;
        self.homes.push(home)?;
        self.loads[home as usize] += 1;
        Ok(())
    }
}

/// A domain without a pair for each manager. Err is want of memory.
fn empty_domains<G: Agenda + Drop>(alloc: Global, managers: usize) -> Result<Vec<Domain<G>>, Memory>
    ensures { IfOk result (λ domains. domains.items ≡ replicate managers []) }
{
    let mut domains = Vec::with_capacity(alloc, managers)?;
    for _m in 0..managers {
        domains.push(Domain::new(alloc)?)?;
    }
    Ok(domains)
}

/// A load of 0 for each manager. Err is want of memory.
fn no_loads(alloc: Global, managers: usize) -> Result<Vec<u32>, Memory>
    ensures { IfOk result (λ loads. loads.items ≡ replicate managers 0) }
{
    let mut loads = Vec::with_capacity(alloc, managers)?;
    for _m in 0..managers {
        loads.push(0)?;
    }
    Ok(loads)
}
