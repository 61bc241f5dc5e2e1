ghost use Rattle.std.specs.Prelude.{◌≡◌, ◌≤◌, IfOk};

use crate::{LISTENER, Puppet};
use actor_lifecycle::settle;
use actor_trait::{Actor, Context, Event};
use sim_base::{ActorId, Items, Memory, Moment};
use sim_model::{Report, Settled};
use std::alloc::Global;
use std::process::Abort;
use std::test::Fail;

/// The moment of the deeds.
const NOW: Moment = Moment { tick: 1, diasca: 0 };

/// What this actor does.
fn report_of(alloc: Global, id: u32, actor: Puppet) -> Result<Report<Puppet>, Memory>
    ensures { IfOk result (λ report. report.id.0 ≡ id) }
{
    let id = ActorId(id);
    let context = Context {
        seed: 0,
        now: NOW,
        me: id,
    };
    let event = Event {
        first: false,
        spontaneous: true,
        inbox: &[],
    };
    let outcome = actor.act(alloc, &context, &event)?;
    Ok(Report { id, outcome })
}

/// What becomes of the deeds of the actors 2 and 3, where the next actor is 4.
fn settle_two(
    alloc: Global,
    second: Puppet,
    third: Puppet,
    max_actors: u32,
) -> Result<Settled<Puppet>, Memory>
    requires { 3 ≤ max_actors }
{
    let second = report_of(alloc, 2, second)?;
    let third = report_of(alloc, 3, third)?;
    let reports = Items::of(Vec::from_array(alloc, [second, third])?);
    settle(alloc, reports, NOW, 4, max_actors)
}

/// One that bears two listeners.
const CREATOR: Puppet = Puppet {
    at: 1,
    births: 2,
    ..LISTENER
};

#[test]
fn the_newborn_are_numbered_by_creator(rt: HostRuntime) -> Result<(), Fail> {
    let retires = Puppet {
        retires: true,
        ..CREATOR
    };
    let Settled::Settled {
        kept,
        born,
        letters,
        retired,
    } = settle_two(rt.alloc(), CREATOR, retires, 7)?
    else {
        return Err(Fail::from("a fault"));
    };
    assert_eq!(rt; (kept.len(), letters.len()), (2, 4));
    assert_eq!(rt; retired.as_slice(), [ActorId(3)].as_slice());
    let born = born.as_slice().iter();
    let told = [(4, 2, 0), (5, 2, 1), (6, 3, 0), (7, 3, 1)];
    assert!(rt;
        born.map(|b| (b.id.0, b.creator.0, b.index))
            .eq(told.iter().copied())
    );
    Ok(())
}

/// One that also samples a probe that it hasn't.
const UNKNOWN: Puppet = Puppet {
    samples: 1,
    probe: 1,
    ..CREATOR
};

/// The deeds of the actors 2 and 3 show this actor's fault.
fn shows<R: Abort + AllocGlobal>(
    rt: &R,
    second: Puppet,
    third: Puppet,
    max_actors: u32,
    fault: (u32, u32),
) -> Result<(), Fail>
    requires { 3 ≤ max_actors }
{
    let Settled::Faulted { actor, code } = settle_two(rt.alloc(), second, third, max_actors)? else {
        return Err(Fail::from("no fault"));
    };
    assert_eq!(rt; (actor.0, code), fault);
    Ok(())
}

#[test]
fn the_first_fault_of_the_least_actor_is_told(rt: HostRuntime) -> Result<(), Fail> {
    shows(&rt, CREATOR, CREATOR, 6, (3, 902))?;
    shows(&rt, CREATOR, CREATOR, 4, (2, 902))?;
    shows(&rt, LISTENER, UNKNOWN, 4, (3, 902))?;
    shows(&rt, UNKNOWN, CREATOR, 7, (2, 903))
}
