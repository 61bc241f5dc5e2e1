ghost use Rattle.std.specs.Prelude.{◌≡◌, IfOk};

use crate::rows::TWO_DEPOTS;
use actor_lifecycle::settle;
use actor_trait::{Actor, Context, Event};
use scenario::{AnyActor, Scenario};
use sim_base::{ActorId, Items, Memory, Moment};
use sim_model::{Report, Settled, Start};
use std::alloc::Global;
use std::test::Fail;

/// The tick of the depots.
const NOW: Moment = Moment { tick: 1, diasca: 0 };

/// What this depot does at its tick.
fn report_of(alloc: Global, id: u32, depot: &AnyActor) -> Result<Report<AnyActor>, Memory>
    ensures { IfOk result (λ report. report.id.0 ≡ id) }
{
    let id = ActorId(id);
    let context = Context {
        seed: 0,
        now: NOW,
        me: id,
    };
    let event = Event {
        first: false,
        spontaneous: true,
        inbox: &[],
    };
    let outcome = depot.act(alloc, &context, &event)?;
    Ok(Report { id, outcome })
}

/// What becomes of the reports of the depots, the actors 2 and 3.
fn settle_depots(
    alloc: Global,
    first: &Start<AnyActor>,
    second: &Start<AnyActor>,
) -> Result<Settled<AnyActor>, Memory> {
    let first = report_of(alloc, 2, &first.state)?;
    let second = report_of(alloc, 3, &second.state)?;
    let reports = Items::of(Vec::from_array(alloc, [first, second])?);
    settle(alloc, reports, NOW, 4, 6)
}

/// Who of these depots is blamed, and with which code.
fn blamed(alloc: Global, actors: &[Start<AnyActor>]) -> Result<(ActorId, u32), Fail> {
    let [_, first, second] = actors else {
        return Err(Fail::from("no depots"));
    };
    match settle_depots(alloc, first, second)? {
        Settled::Faulted { actor, code } => Ok((actor, code)),
        Settled::Settled { .. } => Err(Fail::from("no fault")),
    }
}

/// As the run of this scenario does, whose text is among `RUNS`.
#[test]
fn settling_blames_the_second_depot(rt: HostRuntime) -> Result<(), Fail> {
    let read = Scenario::read(rt.alloc(), TWO_DEPOTS.as_bytes())?;
    let blamed = blamed(rt.alloc(), read.setup.actors.as_slice())?;
    assert!(rt; blamed == (ActorId(3), 902));
    Ok(())
}
