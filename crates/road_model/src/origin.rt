ghost use Rattle.std.specs.Prelude.{◌≡◌, ◌++◌, IfOk, OnOk};
ghost use Rattle.actor_trait.specs.Seen.{seen};

use crate::Vehicle;
use crate::copies::copy_ids;
use crate::letters::count_births;
use actor_trait::{Bearing, Context, Event, Sample};
use sim_base::{ActorId, Few, Items, Memory};
use std::alloc::Global;
use std::marker::Model;

/// Where vehicles come from: `count` of them, `period` ticks apart, each with the origin's route. Its
/// one probe, `sent`, counts the births that it was told of.
#[derive(Drop)]
pub struct Origin {
    /// The roads of its vehicles in order, 1 to 32.
    pub route: Items<ActorId>,
    /// Ticks between two births, 1 to 1,000,000,000.
    pub period: u64,
    /// How many vehicles there are in all, 0 to 100,000.
    pub count: u32,
    /// How many are left to be born, at most `count`.
    pub left: u32,
    /// How many were born; any number.
    pub born: i64,
}

impl Model for Origin {
    ghost use Rattle.road_model.specs.OriginFields.{IsOrigin, OriginFields};

    ghost Value = { OriginFields };

    ghost view = { λ s. record { route = s.route; period = s.period; count = s.count; left = s.left; born = s.born } };

    ghost invariant = { λ s. IsOrigin (record { route = s.route; period = s.period; count = s.count; left = s.left; born = s.born }) };

    ghost inverse = { λ s. record { route = s.route; period = s.period; count = s.count; left = s.left; born = s.born } };
}

impl Origin {
    ghost use Rattle.road_model.specs.Origins.{hear, next_birth, origin_bears, take_one, vehicle_of};

    /// What comes of an event. Err is want of memory.
    pub fn bear(
        &self,
        alloc: Global,
        context: &Context,
        event: &Event<'_>,
    ) -> Result<Bearing<Origin, Vehicle>, Memory>
        ensures { IfOk result (λ bearing. bearing ≡ origin_bears self.now context.entry.now (seen event.now.first event.now.spontaneous event.now.inbox.now)) }
    {
        let mut state = self.copy(alloc)?;
        let mut ticks = Few::new(alloc);
        let mut births = Items::new(alloc);
        let mut samples = Few::new(alloc);
        if event.first {
            self.ask(context, &mut ticks)?;
        }
        if event.spontaneous {
            births.push(self.vehicle(alloc)?).map_err(|_| Memory)?;
            state.take_one();
            state.ask(context, &mut ticks)?;
        }
        let told = count_births(event.inbox);
        state.hear(told);
        if told > 0 {
            let sample = Sample {
                probe: 0,
                value: state.born,
            };
            samples.add(sample)?;
        }
        Ok(Bearing {
            state,
            sends: Few::new(alloc),
            ticks,
            births,
            samples,
            retire: false,
        })
    }

    /// An equal state. Err is want of memory.
    pub fn copy(&self, alloc: Global) -> Result<Origin, Memory>
        ensures { IfOk result (λ copy. copy ≡ self.now) }
    {
        Ok(Origin {
            route: Items::of(copy_ids(alloc, self.route.as_slice(), 0)?),
            period: self.period,
            count: self.count,
            left: self.left,
            born: self.born,
        })
    }

    /// A vehicle before it is born.
    fn vehicle(&self, alloc: Global) -> Result<Vehicle, Memory>
        ensures { IfOk result (λ vehicle. vehicle ≡ vehicle_of self.now) }
    {
        Ok(Vehicle {
            route: Items::of(copy_ids(alloc, self.route.as_slice(), 0)?),
            leg: 0,
            since: 0,
            waits: true,
        })
    }

    /// One less is left.
    fn take_one(&mut self)
        ensures { self.new ≡ take_one self.old }
    {
        self.left = self.left.saturating_sub(1);
    }

    /// Counts births.
    fn hear(&mut self, births: usize)
        ensures { self.new ≡ hear self.old births }
    {
        self.born = self.born.saturating_add_unsigned(births as u64);
    }

    /// While some are left, asks the tick one period later.
    fn ask(&self, context: &Context, ticks: &mut Few<u64, 1>) -> Result<(), Memory>
        ensures { OnOk result (ticks.new ≡ ticks.old ++ next_birth self.now context.entry.now) }
    {
        if self.left > 0 {
            let next = context.now.tick.saturating_add(self.period);
            ticks.add(next)?;
        }
        Ok(())
    }
}
