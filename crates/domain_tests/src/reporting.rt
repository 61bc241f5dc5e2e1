ghost use Rattle.std.specs.Prelude.{◌≡◌, ◌<◌, ◌≤◌, ◌++◌, ◌∷◌, [], length, map, false, if◌then◌else◌, slice_index_or, IfOk, IfSome, OnOk, Some, None};
ghost use Rattle.std.specs.List.{filter_map};
ghost use Rattle.std.specs.List.Sorted.{IsStrictlyIncreasing};
ghost use Rattle.sim_base.specs.declared.ids.ActorId.{ActorId};
ghost use Rattle.sim_model.specs.Moment.{is_among, report_of};
ghost use Rattle.local_manager.specs.Views.{actor_at, managers_of, reports_now, scheduled_at};
ghost use Rattle.local_manager.specs.declared.phase.Phase.TheVariants as phase;

use actor_trait::Actor;
use agenda::Agenda;
use local_manager::World;
use sim_base::{ActorId, ManagerId, Memory};
use sim_model::Report;
use std::alloc::Global;

/// What comes of a scheduled actor.
fn report_on<A: Actor + Drop, G: Agenda + Drop>(
    alloc: Global,
    world: &World<A, G>,
    m: ManagerId,
    i: u32,
) -> Result<Report<A>, Memory>
    requires entered { world.now.phase ≡ phase.Entered }
    requires manager { m.0 < managers_of world.now }
    requires place { i < length (scheduled_at world.now m.0) }
    ensures { IfOk result (λ r. report_of A.meaning world.now.one world.now.moment (actor_at world.now m.0 i) ≡ Some r) }
{
    let context = world.context_of(m, i);
    let event = world.event_of(m, i);
    let outcome = world.state_of(m, i).act(alloc, &context, &event)?;
    Ok(Report {
        id: context.me,
        outcome,
    })
}

/// Where an actor stands among these.
fn place_in(ids: &[ActorId], id: ActorId) -> Option<u32>
    requires { length ids.now ≤ 1000000 }
    ensures within { IfSome result (λ i. i < length ids.now) }
    ensures there { IfSome result (λ i. slice_index_or ids.now i (record { 0 = 0 }) ≡ id) }
    ensures none { result ≡ None → is_among ids.now id ≡ false }
{
    let mut i = 0;
    for other in ids {
        if other.0 == id.0 {
            return Some(i);
        }
        i += 1;
    }
    None
}

/// Adds what comes of an actor, if it is scheduled.
fn add_report<A: Actor + Drop, G: Agenda + Drop>(
    alloc: Global,
    world: &World<A, G>,
    id: ActorId,
    reports: &mut Vec<Report<A>>,
) -> Result<(), Memory>
    requires { world.now.phase ≡ phase.Entered }
    ensures { OnOk result (reports.new.items ≡ reports.old.items
        ++ filter_map (report_of A.meaning world.now.one world.now.moment) (if is_among world.now.one.scheduled id then id ∷ [] else [])) }
{
    let _managers = world.managers();
    let m = world.route(id);
    let Some(i) = place_in(world.scheduled(m), id) else {
        return Ok(());
    };
    reports.push(report_on(alloc, world, m, i)?)?;
    Ok(())
}

/// What comes of all that are scheduled, ascending. Err is want of memory.
pub fn reports<A: Actor + Drop, G: Agenda + Drop>(
    alloc: Global,
    world: &World<A, G>,
) -> Result<Vec<Report<A>>, Memory>
    requires { world.now.phase ≡ phase.Entered }
    ensures reports { IfOk result (λ all. all.items ≡ reports_now A.meaning world.now) }
    ensures ascending { OnOk result (IsStrictlyIncreasing (map (λ r. r.id.0) (reports_now A.meaning world.now))) }
{
    let _managers = world.managers();
    let mut all = Vec::new(alloc);
    for n in 1..world.next_id() {
        add_report(alloc, world, ActorId(n), &mut all)?;
    }
    Ok(all)
}
