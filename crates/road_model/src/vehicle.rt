ghost use Rattle.std.specs.Prelude.{◌≡◌, ◌+◌, ◌<◌, false, pos, ◌-ℤ◌, length, OnOk, refl};
ghost use Rattle.std.specs.Int.{w64, saturate_signed};
ghost use Rattle.std.specs.List.{fold};
ghost use Rattle.road_model.specs.Vehicles.{hear};

use crate::copies::copy_ids;
use crate::letters::{ADMIT, ENTER, LEAVE, send};
use actor_trait::{Actor, Context, Event, Letter, Outcome, Parcel, Sample};
use sim_base::{ActorId, Few, Items, Memory};
use std::alloc::Global;
use std::marker::Model;

/// A vehicle, which drives along its route and retires at its end. It enters a road before it leaves
/// the one before. Its probes are `leg`, the number from 1 of the road that it entered, and `trip`,
/// the ticks that its way took.
#[derive(Drop)]
pub struct Vehicle {
    /// Its roads in order, 1 to 32.
    pub route: Items<ActorId>,
    /// At which of them it is, counted from 0; below their number.
    pub leg: u32,
    /// The tick of its first event; any tick.
    pub since: u64,
    /// Whether it waits to enter that road; else it drives there.
    pub waits: bool,
}

impl Model for Vehicle {
    ghost use Rattle.road_model.specs.VehicleFields.{IsVehicle, VehicleFields};

    ghost Value = { VehicleFields };

    ghost view = { λ s. record { route = s.route; leg = s.leg; since = s.since; waits = s.waits } };

    ghost invariant = { λ s. IsVehicle (record { route = s.route; leg = s.leg; since = s.since; waits = s.waits }) };

    ghost inverse = { λ s. record { route = s.route; leg = s.leg; since = s.since; waits = s.waits } };
}

impl Vehicle {
    ghost use Rattle.road_model.specs.Vehicles.{is_admitted, is_last, road, road_of_leg, trip};

    /// The road of a leg.
    fn road_of_leg(&self, leg: u32) -> ActorId
        requires { leg < length self.now.route }
        ensures { result ≡ road_of_leg self.now leg }
    {
        self.route.as_slice()[leg as usize]
    }

    /// The road that it is at.
    fn road(&self) -> ActorId
        ensures { result ≡ road self.now }
    {
        self.road_of_leg(self.leg)
    }

    /// The first road of its route.
    fn first_road(&self) -> ActorId
        ensures { result ≡ road_of_leg self.now 0 }
    {
        self.route.as_slice()[0]
    }

    /// Whether no other road comes after the one that it is at.
    fn is_last(&self) -> bool
        ensures value { result ≡ is_last self.now }
        ensures more { result ≡ false → self.now.leg + 1 < length self.now.route }
    {
        self.leg as usize + 1 == self.route.len()
    }

    /// Whether a letter lets it in where it waits.
    fn is_admitted(&self, letter: &Letter) -> bool
        ensures { result ≡ is_admitted self.now letter.now }
    {
        self.waits
            && letter.payload.code == ADMIT
            && letter.payload.a > 0
            && letter.from == self.road()
    }

    /// What its way took.
    fn trip(&self, context: &Context) -> Sample
        ensures { result ≡ trip self.now context.entry.now }
    {
        Sample {
            probe: 1,
            value: ticks_between(self.since, context.now.tick),
        }
    }
}

/// How many ticks lie between two, up to the ends of an i64.
fn ticks_between(from: u64, to: u64) -> i64
    ensures { result ≡ saturate_signed w64 (pos to -ℤ pos from) }
{
    match to.checked_signed_diff(from) {
        Some(ticks) => ticks,
        None if to < from => i64::MIN,
        None => i64::MAX,
    }
}

/// A vehicle at its event, with what came of it so far.
#[derive(Drop)]
struct Drive {
    vehicle: Vehicle,
    sends: Few<Parcel, 1>,
    ticks: Few<u64, 1>,
    samples: Few<Sample, 2>,
    retires: bool,
}

impl Drive {
    ghost use Rattle.road_model.specs.Vehicles.{arrive, end, enter, start, turn};

    /// Asks to enter the first road.
    fn start(&mut self, context: &Context) -> Result<(), Memory>
        ensures { OnOk result (self.new ≡ start self.old context.entry.now) }
    {
        self.vehicle.since = context.now.tick;
        self.vehicle.waits = true;
        send(&mut self.sends, self.vehicle.first_road(), ENTER, 0)
    }

    /// Leaves the last road, and ends the trip.
    fn end(&mut self, context: &Context) -> Result<(), Memory>
        ensures { OnOk result (self.new ≡ end self.old context.entry.now) }
    {
        self.retires = true;
        let trip = self.vehicle.trip(context);
        self.samples.add(trip)?;
        send(&mut self.sends, self.vehicle.road(), LEAVE, 0)
    }

    /// Asks to enter the next road.
    fn turn(&mut self) -> Result<(), Memory>
        requires { self.old.vehicle.leg + 1 < length self.old.vehicle.route }
        ensures { OnOk result (self.new ≡ turn self.old) }
    {
        self.vehicle.leg += 1;
        self.vehicle.waits = true;
        send(&mut self.sends, self.vehicle.road(), ENTER, 0)
    }

    /// Is at the end of the road that it drives on.
    fn arrive(&mut self, context: &Context) -> Result<(), Memory>
        ensures { OnOk result (self.new ≡ arrive self.old context.entry.now) }
    {
        if self.vehicle.is_last() {
            self.end(context)
        } else {
            self.turn()
        }
    }

    /// Leaves the road before, and drives for so many ticks.
    fn enter(&mut self, context: &Context, length: i64) -> Result<(), Memory>
        ensures { OnOk result (self.new ≡ enter self.old context.entry.now length) }
    {
        self.vehicle.waits = false;
        let leg = self.vehicle.leg;
        if leg > 0 {
            send(&mut self.sends, self.vehicle.road_of_leg(leg - 1), LEAVE, 0)?;
        }
        let sample = Sample {
            probe: 0,
            value: i64::from(leg) + 1,
        };
        self.samples.add(sample)?;
        let end = context.now.tick.saturating_add(length.unsigned_abs());
        self.ticks.add(end)
    }

    /// Enters the road that lets it in; any other letter is ignored.
    fn hear(&mut self, context: &Context, letter: &Letter) -> Result<(), Memory>
        ensures { OnOk result (self.new ≡ hear context.entry.now self.old letter.now) }
    {
        if self.vehicle.is_admitted(letter) {
            self.enter(context, letter.payload.a)?;
        }
        Ok(())
    }

    fn hear_all(&mut self, context: &Context, inbox: &[Letter]) -> Result<(), Memory>
        ensures { OnOk result (self.new ≡ fold (hear context.entry.now) self.old inbox.now) }
    {
        for letter in inbox {
            self.hear(context, letter)?;
        }
        Ok(())
    }
}

impl Actor for Vehicle {
    ghost use Rattle.road_model.specs.Vehicles.{vehicle_meaning};

    ghost meaning = { vehicle_meaning };

    fn act(
        &self,
        alloc: Global,
        context: &Context,
        event: &Event<'_>,
    ) -> Result<Outcome<Self>, Memory> {
        let mut drive = Drive {
            vehicle: self.copy(alloc)?,
            sends: Few::new(alloc),
            ticks: Few::new(alloc),
            samples: Few::new(alloc),
            retires: false,
        };
        if event.first {
            drive.start(context)?;
        }
        if event.spontaneous && !drive.vehicle.waits {
            drive.arrive(context)?;
        }
        drive.hear_all(context, event.inbox)?;
        let Drive {
            vehicle: state,
            sends,
            ticks,
            samples,
            retires: retire,
        } = drive;
        Ok(Outcome {
            state,
            sends,
            ticks,
            births: Items::new(alloc),
            samples,
            retire,
            fault: None,
        })
    }

    fn kind(&self) -> &str {
        "vehicle"
    }

    fn probes(&self) -> u32 {
        2
    }

    fn probe(&self, n: u32) -> &str {
        if n == 0 { "leg" } else { "trip" }
    }

    fn copy(&self, alloc: Global) -> Result<Self, Memory> {
        Ok(Vehicle {
            route: Items::of(copy_ids(alloc, self.route.as_slice(), 0)?),
            leg: self.leg,
            since: self.since,
            waits: self.waits,
        })
    }

    ghost lawful = { record { kind_is_word = λ _. refl; probes_are_words = λ _. refl; keeps_kind = λ _ _ _. refl; keeps_probes = λ _ _ _. refl } };
}
