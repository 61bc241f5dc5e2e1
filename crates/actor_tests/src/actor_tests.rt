use crate::steps::{Step, Why, at, each_comes_to, event, has_names};
use actor_trait::{
    Actor, Ball, Clock, FaultCode, Fuse, Outcome, Parcel, Payload, Sample, fault_of,
};
use sim_base::{ActorId, Few, Items, Memory, Moment};
use std::alloc::Global;
use std::test::Fail;

/// A clock of period 2 that beats twice.
const CLOCK: [Step<'static>; 3] = [
    (Why::First, 0, &[], &[], &[2], &[], false),
    (Why::Tick, 2, &[], &[], &[4], &[(0, 1)], false),
    (Why::Tick, 4, &[], &[], &[], &[(0, 2)], false),
];

/// A ball that was received as often as can be counted but once. Actor 3 sends it with 2 hits left,
/// actor 4 with 1, and a third letter is none.
const BALL: [Step<'static>; 1] = [(
    Why::FirstAndTick,
    3,
    &[(3, 1, 2), (4, 1, 1), (3, 2, 9)],
    &[(2, 1, 4, 0), (3, 1, 1, 0)],
    &[3],
    &[(0, i64::MAX)],
    false,
)];

/// A fuse that burns at tick 3.
const FUSE: [Step<'static>; 1] = [(Why::First, 0, &[], &[], &[3], &[], false)];

#[test]
fn actors_act(rt: HostRuntime) -> Result<(), Fail> {
    let clock = each_comes_to(&rt, clock(), &CLOCK)?;
    assert_eq!(rt; clock.copy(rt.alloc())?.beats, 2);
    let ball = Ball {
        peer: ActorId(2),
        at: 3,
        hits: 4,
        received: i64::MAX - 1,
    };
    each_comes_to(&rt, ball, &BALL)?;
    let fuse = Fuse { at: 3, code: 12 };
    each_comes_to(&rt, fuse, &FUSE)?;
    let burnt = Fuse { at: 0, code: 12 }.act(rt.alloc(), &at(0), &event(Why::First, &[]))?;
    assert_eq!(rt; burnt.fault.map(|code| code.code()), Some(12));
    assert!(rt; burnt.ticks.is_empty());
    has_names(&rt, &clock, "clock", &["beats"]);
    has_names(&rt, &ball, "ball", &["hits"]);
    has_names(&rt, &fuse, "fuse", &[]);
    Ok(())
}

fn clock() -> Clock {
    Clock {
        period: 2,
        count: 2,
        beats: 0,
    }
}

/// An outcome at tick 3: a fault of the model's own or 0; how many letters, ticks, births and samples;
/// the tick that is asked and the probe that is sampled; the fault that shows.
type Shown = (u32, [usize; 4], u64, u32, Option<u32>);

const SHOWN: [Shown; 11] = [
    (0, [0, 1, 0, 1], 3, 9, Some(900)),
    (12, [0, 1, 0, 1], 3, 9, Some(12)),
    (0, [0, 0, 0, 1], 3, 9, Some(903)),
    (0, [0, 1_024, 0, 1], 4, 0, None),
    (0, [0, 1_025, 0, 1], 4, 9, Some(901)),
    (900, [0, 1, 0, 1], 4, 1, Some(903)),
    (0, [1_024, 1_024, 1_024, 1_024], 4, 0, None),
    (0, [1_025, 0, 0, 0], 4, 0, Some(901)),
    (0, [0, 1_025, 0, 0], 4, 0, Some(901)),
    (0, [0, 0, 1_025, 0], 4, 0, Some(901)),
    (0, [0, 0, 0, 1_025], 4, 0, Some(901)),
];

fn outcome(alloc: Global, shown: Shown) -> Result<Outcome<Clock>, Memory> {
    let (own, [sends, ticks, births, samples], tick, probe, _) = shown;
    let payload = Payload {
        code: 1,
        a: 0,
        b: 0,
    };
    let parcel = Parcel {
        to: ActorId(1),
        payload,
    };
    let sample = Sample { probe, value: 0 };
    Ok(Outcome {
        state: clock(),
        sends: Few::of(vec![in alloc; parcel; sends]?),
        ticks: Few::of(vec![in alloc; tick; ticks]?),
        births: Items::of(vec![in alloc; clock(); births]?),
        samples: Few::of(vec![in alloc; sample; samples]?),
        retire: false,
        fault: FaultCode::of(own),
    })
}

#[test]
fn faults_come_in_their_order(rt: HostRuntime) -> Result<(), Fail> {
    let now = Moment { tick: 3, diasca: 1 };
    for (n, shown) in SHOWN.iter().enumerate() {
        let outcome = outcome(rt.alloc(), *shown)?;
        assert_eq!(rt; fault_of(&outcome, now), shown.4, "outcome {n}");
    }
    assert_eq!(rt; FaultCode::of(899).map(|code| code.code()), Some(899));
    Ok(())
}
