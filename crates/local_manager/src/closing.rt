ghost use Rattle.std.specs.Prelude.{◌≡◌, ◌+◌, ◌-◌, ◌^◌, ◌≤◌, ◌++◌, ◌||◌, ◌&&◌, [], if◌then◌else◌, length, map, min, nat_eq, not, IfOk, OnErr, OnOk, None, Some};
ghost use Rattle.std.specs.List.{AllPairs, count_by, filter, fold, list_any};
ghost use Rattle.sim_base.specs.declared.ids.ActorId.{ActorId};
ghost use Rattle.actor_trait.specs.InboxOrder.{is_to};
ghost use Rattle.inbox_order.specs.Inboxes.{inbox_of};
ghost use Rattle.inbox_store.specs.Letters.{list_of};
ghost use Rattle.sim_model.specs.Births.{birth_letter, member_born, without_births};
ghost use Rattle.sim_model.specs.Moment.{fault_of_moment, is_alive, is_among, put_state, retired};
ghost use Rattle.sim_model.specs.Setups.{Ascend};
ghost use Rattle.sim_model.specs.Whole.{Numbered};
ghost use Rattle.local_manager.specs.Directories.{AllPlaced};
ghost use Rattle.local_manager.specs.Mail.{IsEmpty};
ghost use Rattle.local_manager.specs.Views.{AreInboxesNow, IsClosed, born_now, carried_out, dead_now, reports_now, with_newborn};
ghost use Rattle.local_manager.specs.declared.phase.Phase.TheVariants as phase;

use crate::actors::{admit_all, retire_all};
use crate::called::{creators_of, ids_of, put_called};
use crate::directory::Directory;
use crate::posting::deliver;
use crate::states::{add_newborn, apply_all};
use crate::{Phase, Room, World};
use actor_trait::{Actor, Letter};
use agenda::Agenda;
use inbox_order::Inboxes;
use placement::Policy;
use sim_base::{ActorId, Items, Memory};
use sim_model::{Member, Newborn, Report, add_members};
use std::alloc::Global;

impl<A: Actor + Drop, G: Agenda + Drop> World<A, G> {
    /// Closes the moment that is entered, by the reports without their births, the newborn, the letters
    /// that tell of them, those who retire, and the inboxes of what was sent. Ok is how many letters found
    /// no living recipient.
    pub(crate) fn close_with(
        &mut self,
        kept: Items<Report<A>>,
        born: Items<Newborn<A>>,
        told: Items<Letter>,
        gone: Items<ActorId>,
        inboxes: Inboxes,
    ) -> Result<u64, Memory>
        requires entered { self.old.phase ≡ phase.Entered }
        requires calm { fault_of_moment A.meaning self.old.one self.old.moment (reports_now A.meaning self.old) ≡ None }
        requires kept { kept ≡ map without_births (reports_now A.meaning self.old) }
        requires born { born ≡ born_now A.meaning self.old }
        requires told { told ≡ map birth_letter (born_now A.meaning self.old) }
        requires gone { gone ≡ retired (reports_now A.meaning self.old) }
        requires inboxes { AreInboxesNow A.meaning self.old inboxes }
        ensures closed { OnOk result (IsClosed A.meaning self.old self.new) }
        ensures dead { IfOk result (λ dead. dead ≡ dead_now A.meaning self.old) }
        ensures torn { OnErr result (self.new.phase ≡ phase.Torn) }
    {
        self.phase = Phase::Torn;
        let mut reports = kept.into_vec();
        carry_out(
            &mut self.states,
            &mut self.directory,
            &mut reports,
            gone.as_slice(),
        )?;
        self.newborn = admit(
            self.alloc,
            self.policy,
            &mut self.directory,
            &mut self.cast,
            &mut self.states,
            born.into_vec(),
        )?;
        let dead = deliver(&mut self.store, &self.states, &inboxes, told.as_slice())?;
        self.creators = creators_of(self.alloc, &self.states, told.as_slice())?;
        put_called(
            self.alloc,
            &mut self.called,
            &self.states,
            &self.newborn,
            &inboxes,
            &self.creators,
        )?;
        self.opened.clear();
        self.room = Room { reports, inboxes };
        self.dead_letters = self.dead_letters.saturating_add(dead);
        self.phase = Phase::Closed;
        Ok(dead)
    }
}

/// Those who acted have their next states and the ticks that they asked for, these are gone, and nobody is
/// scheduled any more. Err is want of memory; some may be carried out then.
fn carry_out<A: Drop, G: Agenda + Drop>(
    states: &mut Vec<Option<A>>,
    directory: &mut Directory<G>,
    kept: &mut Vec<Report<A>>,
    gone: &[ActorId],
) -> Result<(), Memory>
    ensures states { OnOk result (states.new.items ≡ fold put_state states.old.items kept.old.items) }
    ensures directory { OnOk result (directory.new ≡ carried_out directory.old kept.old.items gone.now) }
{
    directory.leave();
    apply_all(states, directory, kept)?;
    retire_all(directory, gone);
    Ok(())
}

/// The newborn are placed, and join the cast and the states. Ok is their numbers. Err is want of memory;
/// some may have joined then.
fn admit<A: Actor + Drop, G: Agenda + Drop>(
    alloc: Global,
    policy: Policy,
    directory: &mut Directory<G>,
    cast: &mut Vec<Member>,
    states: &mut Vec<Option<A>>,
    born: Vec<Newborn<A>>,
) -> Result<Vec<ActorId>, Memory>
    requires numbered { Numbered (length directory.old.placed.homes + 1) (map (λ b. b.id) born.items) }
    requires room { length directory.old.placed.homes + length born.items ≤ 1000000 }
    requires idle { directory.old.scheduled ≡ [] }
    requires known { AllPlaced (λ d. d.actor) (length directory.old.placed.homes) directory.old.agenda }
    ensures directory { OnOk result (directory.new ≡ record directory.old { placed = with_newborn policy directory.old.placed born.items }) }
    ensures cast { OnOk result (cast.new.items ≡ cast.old.items ++ map (member_born A.meaning) born.items) }
    ensures states { OnOk result (states.new.items ≡ states.old.items ++ map (λ b. Some b.state) born.items) }
    ensures ids { IfOk result (λ ids. ids.items ≡ map (λ b. b.id) born.items) }
{
    admit_all(directory, policy, &born)?;
    add_members(alloc, cast, &born)?;
    let ids = ids_of(alloc, &born)?;
    add_newborn(states, born)?;
    Ok(ids)
}
