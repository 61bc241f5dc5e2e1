use crate::steps::{
    Birth, Sampled, Step, Told, Why, at, bears, comes_to, each_comes_to, event, has_names, letters,
};
use road_model::{Origin, Road, Vehicle};
use sim_base::{ActorId, Items};
use std::alloc::{AllocError, Global};
use std::process::Abort;
use std::test::Fail;

/// A road of length 3 with room for one.
const ROAD: [Step<'static>; 6] = [
    (Why::First, 0, &[], &[], &[], &[(0, 0), (1, 0)], false),
    (
        Why::Letters,
        1,
        &[(7, 20, 0), (8, 20, 0), (9, 20, 0)],
        &[(7, 21, 3, 0)],
        &[],
        &[(0, 1), (1, 2)],
        false,
    ),
    (
        Why::Letters,
        1,
        &[(7, 22, 0)],
        &[(8, 21, 3, 0)],
        &[],
        &[(0, 1), (1, 1)],
        false,
    ),
    (
        Why::Letters,
        2,
        &[(5, 20, 0), (8, 22, 0), (9, 22, 0)],
        &[(9, 21, 3, 0), (5, 21, 3, 0)],
        &[],
        &[(0, 1), (1, 0)],
        false,
    ),
    (
        Why::Letters,
        3,
        &[(5, 22, 0), (5, 22, 0)],
        &[],
        &[],
        &[(0, 0), (1, 0)],
        false,
    ),
    (
        Why::Letters,
        4,
        &[(5, 21, 0), (5, 9, 0)],
        &[],
        &[],
        &[],
        false,
    ),
];

/// A vehicle on the roads 1 and 2.
const VEHICLE: [Step<'static>; 6] = [
    (Why::First, 3, &[], &[(1, 20, 0, 0)], &[], &[], false),
    (
        Why::Letters,
        3,
        &[(2, 21, 4), (1, 21, 0), (1, 20, 4), (1, 21, 4), (1, 21, 5)],
        &[],
        &[7],
        &[(0, 1)],
        false,
    ),
    (Why::Tick, 7, &[], &[(2, 20, 0, 0)], &[], &[], false),
    (Why::Tick, 7, &[], &[], &[], &[], false),
    (
        Why::Letters,
        8,
        &[(1, 21, 9), (2, 21, 2)],
        &[(1, 22, 0, 0)],
        &[10],
        &[(0, 2)],
        false,
    ),
    (Why::Tick, 10, &[], &[(2, 22, 0, 0)], &[], &[(1, 7)], true),
];

/// A vehicle that hasn't entered its first road.
fn waiting(alloc: Global) -> Result<Vehicle, AllocError> {
    Ok(Vehicle {
        route: Items::of(vec![in alloc; ActorId(1), ActorId(2)]?),
        leg: 0,
        since: 0,
        waits: true,
    })
}

/// A road lets cars in while there is room, and a vehicle drives along its route.
#[test]
fn a_road_and_a_vehicle_act(rt: HostRuntime) -> Result<(), Fail> {
    let road = Road {
        length: 3,
        room: 1,
        cars: 0,
        queue: Items::new(rt.alloc()),
    };
    has_names(&rt, &road, "road", &["cars", "queue"]);
    let road = each_comes_to(&rt, road, &ROAD)?;
    assert!(rt; road.queue.is_empty());
    let vehicle = waiting(rt.alloc())?;
    has_names(&rt, &vehicle, "vehicle", &["leg", "trip"]);
    each_comes_to(&rt, vehicle, &VEHICLE)?;
    Ok(())
}

/// A road of length 3 with room for one, at which actor 4 waits.
fn jammed(alloc: Global, cars: i64) -> Result<Road, AllocError> {
    Ok(Road {
        length: 3,
        room: 1,
        cars,
        queue: Items::of(vec![in alloc; ActorId(4)]?),
    })
}

/// A vehicle that drives on its only road.
fn driving(alloc: Global, since: u64) -> Result<Vehicle, AllocError> {
    Ok(Vehicle {
        route: Items::of(vec![in alloc; ActorId(1)]?),
        leg: 0,
        since,
        waits: false,
    })
}

/// A road on which there are so many cars lets this actor in when one leaves and another asks.
fn lets_in<R: Abort + AllocGlobal>(rt: &R, cars: i64, to: u32, after: i64) -> Result<(), Fail> {
    let inbox: &[Told] = &[(7, 22, 0), (7, 20, 0)];
    let samples: &[Sampled] = &[(0, after), (1, 1)];
    let step: Step<'_> = (
        Why::Letters,
        1,
        inbox,
        &[(to, 21, 3, 0)],
        &[],
        samples,
        false,
    );
    comes_to(rt, &jammed(rt.alloc(), cars)?, step)?;
    Ok(())
}

/// A vehicle that drives on its last road since one tick arrives at another, after such a trip.
fn arrives<R: Abort + AllocGlobal>(rt: &R, since: u64, tick: u64, trip: i64) -> Result<(), Fail> {
    let step: Step<'_> = (
        Why::Tick,
        tick,
        &[],
        &[(1, 22, 0, 0)],
        &[],
        &[(1, trip)],
        true,
    );
    comes_to(rt, &driving(rt.alloc(), since)?, step)?;
    Ok(())
}

/// More cars than have room, or fewer than none; trips past the ends of their type.
#[test]
fn roads_and_vehicles_at_the_ends_of_their_numbers(rt: HostRuntime) -> Result<(), Fail> {
    lets_in(&rt, 5, 4, 5)?;
    lets_in(&rt, i64::MIN, 7, i64::MIN + 1)?;
    arrives(&rt, u64::MAX, 0, i64::MIN)?;
    arrives(&rt, 0, u64::MAX, i64::MAX)
}

/// An origin of two vehicles, 4 ticks apart.
const ORIGIN: [Birth<'static>; 5] = [
    (Why::First, 0, &[], 0, &[4], &[]),
    (Why::Tick, 4, &[], 1, &[8], &[]),
    (
        Why::Letters,
        4,
        &[(0, 0, 0), (5, 0, 0), (0, 1, 0)],
        0,
        &[],
        &[(0, 1)],
    ),
    (Why::Tick, 8, &[(0, 0, 0), (0, 0, 1)], 1, &[], &[(0, 3)]),
    (Why::Tick, 9, &[], 1, &[], &[]),
];

/// Each asks to enter the first road of the route.
fn each_sets_out<R: Abort + AllocGlobal>(rt: &R, vehicles: &[Vehicle]) -> Result<(), Fail> {
    for vehicle in vehicles {
        let step: Step<'_> = (Why::First, 1, &[], &[(1, 20, 0, 0)], &[], &[], false);
        comes_to(rt, vehicle, step)?;
    }
    Ok(())
}

/// An origin of two vehicles, 4 ticks apart, of which none was born.
fn origin(alloc: Global) -> Result<Origin, AllocError> {
    Ok(Origin {
        route: Items::of(vec![in alloc; ActorId(1), ActorId(2)]?),
        period: 4,
        count: 2,
        left: 2,
        born: 0,
    })
}

#[test]
fn an_origin_bears_vehicles(rt: HostRuntime) -> Result<(), Fail> {
    let mut origin = origin(rt.alloc())?;
    for birth in &ORIGIN {
        let (why, tick, told, ..) = *birth;
        let inbox = letters(rt.alloc(), told)?;
        let copy = origin.copy(rt.alloc())?;
        let bearing = copy.bear(rt.alloc(), &at(tick), &event(why, inbox.as_slice()))?;
        let (state, vehicles) = bears(&rt, bearing, *birth)?;
        each_sets_out(&rt, vehicles.as_slice())?;
        origin = state;
    }
    Ok(())
}
