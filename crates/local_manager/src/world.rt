ghost use Rattle.std.specs.Prelude.{◌≡◌, ◌≢◌, ◌+◌, ◌-◌, ◌<◌, ◌≤◌, ◌^◌, [], IfOk, OnErr, OnOk, length, None};
ghost use Rattle.std.specs.List.Sorted.{IsPermutation};
ghost use Rattle.actor_trait.specs.Seen.{seen};
ghost use Rattle.agenda.specs.Dues.{least};
ghost use Rattle.actor_lifecycle.specs.Settling.{settled_by};
ghost use Rattle.std.specs.Prelude.{Some, ◌||◌};
ghost use Rattle.sim_model.specs.Setups.{Ascend};
ghost use Rattle.sim_model.specs.Moment.{context_at, event_at, fault_of_moment, is_among, is_opening, is_spontaneous, next_id, scheduled, state_of};
ghost use Rattle.sim_model.specs.Run.{opening_world};
ghost use Rattle.sim_model.specs.Stepping.{is_occupied};
ghost use Rattle.local_manager.specs.Directories.{AllBelow, home_of};
ghost use Rattle.local_manager.specs.Joined.{joined};
ghost use Rattle.local_manager.specs.Views.{AreInboxesNow, CanEnter, IsClosed, IsEntered, actor_at, dead_now, managers_of, placed_first, reports_now, route_in, scheduled_at, with_letters};
ghost use Rattle.sim_model.specs.Whole.{IsWhole};
ghost use Rattle.local_manager.specs.declared.phase.Phase.TheVariants as phase;

use crate::actors::admit_first;
use crate::directory::Directory;
use crate::opened::{contains, grow_spans, inbox_in, open_all};
use crate::states::{first_states, is_alive, living, living_state};
use crate::{Phase, Room, Span};
use actor_trait::{Actor, Context, Event, Letter, Precedence};
use agenda::Agenda;
use inbox_order::Inboxes;
use inbox_store::LetterStore;
use placement::Policy;
use sim_base::{ActorId, Items, ManagerId, Memory, Moment, Roomy};
use sim_model::{Member, Parameters, Settled, Setup, copy_cast, opening_cast};
use std::alloc::Global;
use std::marker::Model;
use std::mem;

/// The world, kept by managers. Contracts see the one world of the definitions, with the letters of the
/// moment closed last in an order of their own, in which each inbox is the same.
#[derive(Drop)]
pub struct World<A: Actor, G: Agenda> {
    pub(crate) alloc: Global,
    pub(crate) parameters: Parameters,
    pub(crate) policy: Policy,
    /// By number from 1; None where the actor is gone.
    pub(crate) states: Vec<Option<A>>,
    pub(crate) directory: Directory<G>,
    /// The letters of the moment closed last, until the next one is entered.
    pub(crate) store: LetterStore,
    /// The letters of the moment that is entered, each inbox in order.
    pub(crate) opened: Roomy<Letter>,
    /// Where the inbox of each actor stands among them, by number.
    pub(crate) spans: Vec<Span>,
    /// Those that were born when the moment closed last, ascending.
    pub(crate) newborn: Vec<ActorId>,
    /// The newborn and all who have a letter, ascending, once a moment is closed.
    pub(crate) called: Vec<ActorId>,
    /// The living to whom a letter tells of a birth, ascending, once a moment is closed.
    pub(crate) creators: Vec<ActorId>,
    pub(crate) cast: Vec<Member>,
    pub(crate) dead_letters: u64,
    pub(crate) moment: Moment,
    pub(crate) phase: Phase,
    pub(crate) room: Room<A>,
}

impl<A: Actor, G: Agenda> Model for World<A, G> {
    ghost use Rattle.local_manager.specs.Mail.{letters_in};
    ghost use Rattle.local_manager.specs.Views.{WorldParts, IsSoundIn};

    ghost Value = { WorldParts A };

    ghost view = { λ w. record {
      one = record {
        parameters = w.parameters;
        states = w.states.items;
        agenda = w.directory.agenda;
        letters = letters_in w.phase w.store w.opened.list;
        newborn = w.newborn.items;
        scheduled = w.directory.scheduled;
        cast = w.cast.items;
        dead_letters = w.dead_letters;
      };
      placed = w.directory.placed;
      policy = w.policy;
      moment = w.moment;
      phase = w.phase;
    } };

    ghost invariant = { λ w. IsSoundIn w.phase A.meaning (record {
      one = record {
        parameters = w.parameters;
        states = w.states.items;
        agenda = w.directory.agenda;
        letters = letters_in w.phase w.store w.opened.list;
        newborn = w.newborn.items;
        scheduled = w.directory.scheduled;
        cast = w.cast.items;
        dead_letters = w.dead_letters;
      };
      placed = w.directory.placed;
      policy = w.policy;
      moment = w.moment;
      phase = w.phase;
    }) w.store w.opened.list w.spans.items w.called.items w.creators.items };
}

impl<A: Actor + Drop, G: Agenda + Drop> World<A, G> {
    /// The opening world of a setup, with 1 to 16 managers, where the policy places actors. No moment
    /// is entered. Err is want of memory; the setup is gone then.
    pub fn open(
        alloc: Global,
        setup: Setup<A>,
        managers: u32,
        policy: Policy,
    ) -> Result<World<A, G>, Memory>
        requires some { 1 ≤ managers }
        requires few { managers ≤ 16 }
        ensures world { IfOk result (λ w. w.one ≡ opening_world A.meaning setup) }
        ensures placed { IfOk result (λ w. w.placed ≡ placed_first policy managers setup.actors) }
        ensures policy { IfOk result (λ w. w.policy ≡ policy) }
        ensures now { IfOk result (λ w. w.moment ≡ record { tick = 0; diasca = 0 }) }
        ensures phase { IfOk result (λ w. w.phase ≡ phase.Opening) }
    {
        let Setup {
            seed,
            last_tick,
            diasca_limit,
            max_actors,
            actors,
            urgent,
        } = setup;
        let mut directory = Directory::new(alloc, managers)?;
        admit_first(&mut directory, policy, actors.as_slice())?;
        let cast = opening_cast(alloc, actors.as_slice())?;
        let states = first_states(alloc, actors.into_vec())?;
        Ok(World {
            alloc,
            parameters: Parameters {
                seed,
                last_tick,
                diasca_limit,
                max_actors,
                urgent,
            },
            policy,
            states,
            directory,
            store: LetterStore::new(alloc),
            opened: Roomy::new(alloc),
            spans: Vec::new(alloc),
            newborn: Vec::new(alloc),
            called: Vec::new(alloc),
            creators: Vec::new(alloc),
            cast,
            dead_letters: 0,
            moment: Moment { tick: 0, diasca: 0 },
            phase: Phase::Opening,
            room: Room::new(alloc),
        })
    }

    /// Enters a moment: the first one of an opening world, else the one that comes next after the moment
    /// closed last. The letters stand opened then, each inbox in order. Err is want of memory; the world
    /// stands between two moments then, and is used no further.
    pub fn enter(&mut self, at: Moment) -> Result<(), Memory>
        requires next { CanEnter self.old at }
        ensures entered { OnOk result (IsEntered self.old self.new at) }
        ensures torn { OnErr result (self.new.phase ≡ phase.Torn) }
    {
        if at.diasca != 0 {
            self.enter_called(at)
        } else if at.tick == 0 {
            self.enter_first(at)
        } else {
            self.enter_tick(at)
        }
    }

    /// Enters a later diasca of a tick, at which the called are scheduled.
    fn enter_called(&mut self, at: Moment) -> Result<(), Memory>
        requires next { CanEnter self.old at }
        requires later { at.diasca ≢ 0 }
        ensures entered { OnOk result (IsEntered self.old self.new at) }
        ensures torn { OnErr result (self.new.phase ≡ phase.Torn) }
    {
        self.phase = Phase::Torn;
        grow_spans(&mut self.spans, self.states.len() + 1)?;
        let precedence = Precedence {
            seed: self.parameters.seed,
            sent: self.moment,
            urgent: self.parameters.urgent.as_slice(),
        };
        open_all(
            self.alloc,
            &mut self.store,
            &mut self.opened,
            &mut self.spans,
            &self.called,
            &self.creators,
            &precedence,
        )?;
        self.directory.schedule(&self.called)?;
        self.moment = at;
        self.phase = Phase::Entered;
        Ok(())
    }

    /// Enters the first moment, at which all are scheduled.
    fn enter_first(&mut self, at: Moment) -> Result<(), Memory>
        requires next { CanEnter self.old at }
        requires diasca { at.diasca ≡ 0 }
        requires tick { at.tick ≡ 0 }
        ensures entered { OnOk result (IsEntered self.old self.new at) }
        ensures torn { OnErr result (self.new.phase ≡ phase.Torn) }
    {
        self.phase = Phase::Torn;
        let ids = living(self.alloc, &self.states)?;
        self.directory.schedule(&ids)?;
        self.opened.clear();
        self.moment = at;
        self.phase = Phase::Entered;
        Ok(())
    }

    /// Enters the first diasca of a tick that actors asked for.
    fn enter_tick(&mut self, at: Moment) -> Result<(), Memory>
        requires next { CanEnter self.old at }
        requires diasca { at.diasca ≡ 0 }
        requires tick { at.tick ≢ 0 }
        ensures entered { OnOk result (IsEntered self.old self.new at) }
        ensures torn { OnErr result (self.new.phase ≡ phase.Torn) }
    {
        self.phase = Phase::Torn;
        self.directory.take_tick(at.tick)?;
        self.opened.clear();
        self.moment = at;
        self.phase = Phase::Entered;
        Ok(())
    }

    /// Closes the moment that is entered, at which nobody shows a fault, by what becomes of the reports of
    /// all that are scheduled and the inboxes of what they sent, without the letters that tell of births.
    /// Ok is how many letters found no living recipient, which stands still at the end of u64. Err is want
    /// of memory; the world stands between two moments then, and is used no further.
    pub fn close(&mut self, settled: Settled<A>, inboxes: Inboxes) -> Result<u64, Memory>
        requires entered { self.old.phase ≡ phase.Entered }
        requires calm { fault_of_moment A.meaning self.old.one self.old.moment (reports_now A.meaning self.old) ≡ None }
        requires settled { settled ≡ settled_by A.meaning (next_id self.old.one) (reports_now A.meaning self.old) None }
        requires inboxes { AreInboxesNow A.meaning self.old inboxes }
        ensures closed { OnOk result (IsClosed A.meaning self.old self.new) }
        ensures dead { IfOk result (λ dead. dead ≡ dead_now A.meaning self.old) }
        ensures torn { OnErr result (self.new.phase ≡ phase.Torn) }
    {
        match settled {
            Settled::Faulted { .. } => unreachable!(),
            Settled::Settled {
                kept,
                born,
                letters,
                retired,
            } => self.close_with(kept, born, letters, retired, inboxes),
        }
    }

    /// The room that the lists of the moment closed last had. It takes no memory.
    pub fn take_room(&mut self) -> Room<A>
        ensures world { self.new ≡ self.old }
        ensures reports { result.reports.items ≡ [] }
    {
        let mut room = mem::replace(&mut self.room, Room::new(self.alloc));
        room.reports.clear();
        room
    }

    /// The actors that are scheduled at a manager, ascending. Empty unless a moment is entered.
    pub fn scheduled(&self, m: ManagerId) -> &[ActorId]
        requires manager { m.0 < managers_of self.now }
        ensures ids { result.now ≡ scheduled_at self.now m.0 }
    {
        self.directory.scheduled(m.0 as usize)
    }

    /// What happens to a scheduled actor at the moment that is entered.
    pub fn event_of(&self, m: ManagerId, i: u32) -> Event<'_>
        requires entered { self.now.phase ≡ phase.Entered }
        requires manager { m.0 < managers_of self.now }
        requires place { i < length (scheduled_at self.now m.0) }
        ensures event { seen result.first result.spontaneous result.inbox.now ≡ event_at self.now.one self.now.moment (actor_at self.now m.0 i) }
    {
        let id = self.scheduled(m)[i as usize];
        Event {
            first: is_first(self.moment, &self.newborn, id),
            spontaneous: is_spontaneous(self.moment),
            inbox: inbox_in(self.opened.as_slice(), &self.spans, id),
        }
    }

    /// Where a scheduled actor's event happens.
    pub fn context_of(&self, m: ManagerId, i: u32) -> Context
        requires manager { m.0 < managers_of self.now }
        requires place { i < length (scheduled_at self.now m.0) }
        ensures context { result ≡ context_at self.now.one self.now.moment (actor_at self.now m.0 i) }
    {
        Context {
            seed: self.parameters.seed,
            now: self.moment,
            me: self.scheduled(m)[i as usize],
        }
    }

    /// The state of a scheduled actor, which lives.
    pub fn state_of(&self, m: ManagerId, i: u32) -> &A
        requires entered { self.now.phase ≡ phase.Entered }
        requires manager { m.0 < managers_of self.now }
        requires place { i < length (scheduled_at self.now m.0) }
        ensures state { state_of self.now.one.states (actor_at self.now m.0 i) ≡ Some result.now }
    {
        living_state(&self.states, self.scheduled(m)[i as usize])
    }

    /// How many managers there are, 1 to 16. Their lists of the scheduled, one after the other, have each
    /// that is scheduled once. A caller learns here what holds of the world between two calls.
    pub fn managers(&self) -> u32
        ensures count { result ≡ managers_of self.now }
        ensures some { 1 ≤ result }
        ensures few { result ≤ 16 }
        ensures homes { AllBelow (managers_of self.now) self.now.placed.homes }
        ensures whole { self.now.phase ≢ phase.Torn → IsWhole A.meaning (with_letters self.now.one []) }
        ensures parts { IsPermutation self.now.one.scheduled (joined (home_of self.now.placed.homes) (managers_of self.now) self.now.one.scheduled) }
    {
        self.directory.managers()
    }

    /// The number of the next newborn.
    pub fn next_id(&self) -> u32
        requires standing { self.now.phase ≢ phase.Torn }
        ensures id { result ≡ next_id self.now.one }
        ensures most { result ≤ self.now.one.parameters.max_actors + 1 }
    {
        self.states.len() as u32 + 1
    }

    /// The most actors that the run may ever have.
    pub fn max_actors(&self) -> u32
        ensures { result ≡ self.now.one.parameters.max_actors }
    {
        self.parameters.max_actors
    }

    /// The moment entered last, and (0,0) before the first.
    pub fn now(&self) -> Moment
        ensures { result ≡ self.now.moment }
    {
        self.moment
    }

    /// The senders whose letters come first in an inbox, ascending, each once.
    pub fn urgent(&self) -> &[ActorId]
        ensures { result.now ≡ self.now.one.parameters.urgent }
    {
        self.parameters.urgent.as_slice()
    }

    /// Whether somebody is scheduled at the next diasca.
    pub fn pending(&self) -> bool
        requires closed { self.now.phase ≡ phase.Closed }
        ensures { result ≡ is_occupied (scheduled self.now.one (record { tick = self.now.moment.tick; diasca = self.now.moment.diasca + 1 })) }
    {
        !self.called.is_empty()
    }

    /// The least tick that an actor asked for; None where nobody asked for one.
    pub fn least(&self) -> Option<u64>
        ensures { result ≡ least self.now.one.agenda }
    {
        self.directory.least()
    }

    /// The manager of a living actor, and 0 for any other.
    pub fn route(&self, id: ActorId) -> ManagerId
        ensures home { result.0 ≡ route_in self.now id }
        ensures within { result.0 < managers_of self.now }
    {
        if self.directory.managers() == 1 {
            return ManagerId(0);
        }
        let home = self.directory.home(id);
        if is_alive(&self.states, id) {
            ManagerId(home)
        } else {
            ManagerId(0)
        }
    }

    /// Everybody that there was, ascending. It takes no memory.
    pub fn into_cast(self) -> Items<Member>
        ensures { result ≡ self.one.cast }
    {
        Items::of(self.cast)
    }

    /// Everybody so far, ascending. Err is want of memory.
    pub fn copy_cast(&self, alloc: Global) -> Result<Items<Member>, Memory>
        ensures { IfOk result (λ cast. cast ≡ self.now.one.cast) }
    {
        Ok(Items::of(copy_cast(alloc, &self.cast)?))
    }
}

/// Whether an event is the actor's first.
fn is_first(at: Moment, newborn: &[ActorId], id: ActorId) -> bool
    requires { Ascend newborn.now }
    ensures { result ≡ (is_opening at || is_among newborn.now id) }
{
    (at.tick == 0 && at.diasca == 0) || contains(newborn, id)
}

/// Whether actors act at a moment because they asked for its tick.
fn is_spontaneous(at: Moment) -> bool
    ensures { result ≡ is_spontaneous at }
{
    !(at.tick == 0) && at.diasca == 0
}
