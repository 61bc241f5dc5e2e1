ghost use Rattle.std.specs.Prelude.{◌≡◌, [], IfOk, OnOk};
ghost use Rattle.std.specs.List.{fold};
ghost use Rattle.road_model.specs.Roads.{pass};

use crate::Road;
use crate::copies::copy_ids;
use crate::letters::{ADMIT, ENTER, LEAVE, count, send};
use actor_trait::{Letter, Parcel};
use sim_base::{ActorId, Few, Items, Memory};
use std::alloc::Global;
use std::collections::VecDeque;
use std::marker::Model;

/// A road at its inbox, with what it has sent so far.
#[derive(Drop)]
pub(crate) struct Traffic {
    length: i64,
    room: i64,
    cars: i64,
    queue: VecDeque<ActorId>,
    sends: Few<Parcel, 1>,
}

impl Model for Traffic {
    ghost use Rattle.road_model.specs.RoadFields.{IsRoad, TrafficFields};

    ghost Value = { TrafficFields };

    ghost view = { λ t. record {
      road = record { length = t.length; room = t.room; cars = t.cars; queue = t.queue.items };
      sends = t.sends;
    } };

    ghost invariant = { λ t. IsRoad (record { length = t.length; room = t.room; cars = t.cars; queue = t.queue.items }) };
}

impl Traffic {
    ghost use Rattle.road_model.specs.Roads.{admit, enter, leave};

    /// A road before its letters. There is room for each car that may have to wait, and for a letter
    /// to each that may be let in: those are at most the cars that wait or come, and at most the
    /// places that are free or become so.
    pub(crate) fn open(alloc: Global, road: &Road, inbox: &[Letter]) -> Result<Traffic, Memory>
        ensures { IfOk result (λ traffic. traffic ≡ record { road = road.now; sends = [] }) }
    {
        let coming = count(inbox, ENTER);
        let free = usize::try_from(road.room.saturating_sub(road.cars)).unwrap_or(0);
        let waiting = road.queue.as_slice();
        let queue = copy_ids(alloc, waiting, coming.saturating_sub(free))?;
        let cars = waiting.len().saturating_add(coming);
        let places = free.saturating_add(count(inbox, LEAVE));
        Ok(Traffic {
            length: road.length,
            room: road.room,
            cars: road.cars,
            queue: VecDeque::from(queue),
            sends: Few::with_room(alloc, cars.min(places))?,
        })
    }

    /// The road after its letters, and what it sends.
    pub(crate) fn close(self) -> (Road, Few<Parcel, 1>)
        ensures road { result.0 ≡ self.road }
        ensures sends { result.1 ≡ self.sends }
    {
        let Traffic {
            length,
            room,
            cars,
            queue,
            sends,
        } = self;
        let queue = Items::of(queue.into_vec());
        let road = Road {
            length,
            room,
            cars,
            queue,
        };
        (road, sends)
    }

    /// Lets a car in.
    fn admit(&mut self, car: ActorId) -> Result<(), Memory>
        ensures { OnOk result (self.new ≡ admit self.old car) }
    {
        self.cars = self.cars.saturating_add(1);
        send(&mut self.sends, car, ADMIT, self.length)
    }

    /// Lets a car in while there is room, or puts it behind those that wait.
    fn enter(&mut self, car: ActorId) -> Result<(), Memory>
        ensures { OnOk result (self.new ≡ enter self.old car) }
    {
        if self.cars < self.room {
            self.admit(car)
        } else {
            self.queue.push_back(car).map_err(|_| Memory)
        }
    }

    /// Takes a car off, if there is one, and lets in the first that waits.
    fn leave(&mut self) -> Result<(), Memory>
        ensures { OnOk result (self.new ≡ leave self.old) }
    {
        if self.cars > 0 {
            self.cars = self.cars.saturating_sub(1);
            if let Some(car) = self.queue.pop_front() {
                self.admit(car)?;
            }
        }
        Ok(())
    }

    /// Takes a car on or off; any other letter is ignored.
    fn pass(&mut self, letter: &Letter) -> Result<(), Memory>
        ensures { OnOk result (self.new ≡ pass self.old letter.now) }
    {
        match letter.payload.code {
            ENTER => self.enter(letter.from),
            LEAVE => self.leave(),
            _ => Ok(()),
        }
    }

    pub(crate) fn pass_all(&mut self, inbox: &[Letter]) -> Result<(), Memory>
        ensures { OnOk result (self.new ≡ fold pass self.old inbox.now) }
    {
        for letter in inbox {
            self.pass(letter)?;
        }
        Ok(())
    }
}
