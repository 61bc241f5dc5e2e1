ghost use Rattle.std.specs.Prelude.{◌≡◌, IfOk, refl};
ghost use Rattle.std.specs.List.{list_any};
ghost use Rattle.road_model.specs.Roads.{is_passed};

use crate::copies::copy_ids;
use crate::letters::{ENTER, LEAVE};
use crate::traffic::Traffic;
use actor_trait::{Actor, Context, Event, Letter, Outcome, Sample};
use sim_base::{ActorId, Few, Items, Memory};
use std::alloc::Global;
use std::marker::Model;

/// A road. It lets a car in while there is room, and lets the others wait in the order in which they
/// came; when a car leaves, its place goes to the first that waits. Its probes are `cars` and
/// `queue`, the number of those that wait.
#[derive(Drop)]
pub struct Road {
    /// How many ticks a car drives on it, 1 to 1,000,000.
    pub length: i64,
    /// How many cars have room on it, 1 to 1,000,000.
    pub room: i64,
    /// How many cars are on it; any number.
    pub cars: i64,
    /// Who waits to enter, in order.
    pub queue: Items<ActorId>,
}

impl Model for Road {
    ghost use Rattle.road_model.specs.RoadFields.{IsRoad, RoadFields};

    ghost Value = { RoadFields };

    ghost view = { λ s. record { length = s.length; room = s.room; cars = s.cars; queue = s.queue } };

    ghost invariant = { λ s. IsRoad (record { length = s.length; room = s.room; cars = s.cars; queue = s.queue }) };

    ghost inverse = { λ s. record { length = s.length; room = s.room; cars = s.cars; queue = s.queue } };
}

impl Road {
    ghost use Rattle.road_model.specs.Roads.{road_samples};

    /// How many cars are on it, and how many wait.
    fn samples(&self, alloc: Global) -> Result<Few<Sample, 2>, Memory>
        ensures { IfOk result (λ samples. samples ≡ road_samples self.now) }
    {
        let cars = Sample {
            probe: 0,
            value: self.cars,
        };
        let queue = Sample {
            probe: 1,
            value: self.queue.as_slice().len() as i64,
        };
        let mut samples = Few::new(alloc);
        samples.add(cars)?;
        samples.add(queue)?;
        Ok(samples)
    }
}

fn is_passed(inbox: &[Letter]) -> bool
    ensures { result ≡ list_any is_passed inbox.now }
{
    inbox.iter().any(|letter| letter.payload.code == ENTER || letter.payload.code == LEAVE)
}

impl Actor for Road {
    ghost use Rattle.road_model.specs.Roads.{road_meaning};

    ghost meaning = { road_meaning };

    fn act(
        &self,
        alloc: Global,
        _context: &Context,
        event: &Event<'_>,
    ) -> Result<Outcome<Self>, Memory> {
        let mut traffic = Traffic::open(alloc, self, event.inbox)?;
        traffic.pass_all(event.inbox)?;
        let (state, sends) = traffic.close();
        let samples = if event.first || is_passed(event.inbox) {
            state.samples(alloc)?
        } else {
            Few::new(alloc)
        };
        Ok(Outcome {
            state,
            sends,
            ticks: Few::new(alloc),
            births: Items::new(alloc),
            samples,
            retire: false,
            fault: None,
        })
    }

    fn kind(&self) -> &str {
        "road"
    }

    fn probes(&self) -> u32 {
        2
    }

    fn probe(&self, n: u32) -> &str {
        if n == 0 { "cars" } else { "queue" }
    }

    fn copy(&self, alloc: Global) -> Result<Self, Memory> {
        Ok(Road {
            length: self.length,
            room: self.room,
            cars: self.cars,
            queue: Items::of(copy_ids(alloc, self.queue.as_slice(), 0)?),
        })
    }

    ghost lawful = { record { kind_is_word = λ _. refl; probes_are_words = λ _. refl; keeps_kind = λ _ _ _. refl; keeps_probes = λ _ _ _. refl } };
}
