ghost use Rattle.std.specs.Prelude.{◌≡◌, ℕ, ◌<◌, ◌≤◌, ◌++◌, ◌∷◌, [], List, Some, None, length, map, slice_get, IfOk, OnErr, OnOk};
ghost use Rattle.std.specs.List.{sum_by};
ghost use Rattle.sim_base.specs.declared.ids.ActorId.{ActorId};
ghost use Rattle.sim_base.specs.Room.{Room};
ghost use Rattle.agenda.specs.Dues.{due_at, without_tick};
ghost use Rattle.agenda.specs.declared.due.Due.{Due};
ghost use Rattle.local_manager.specs.Directories.{AllBelow, earlier, earliest, home_of};
ghost use Rattle.local_manager.specs.Merged.{IsSplit};

use crate::Domain;
use agenda::Agenda;
use sim_base::{ActorId, Memory, Roomy};
use std::alloc::Global;

/// The manager of an actor.
pub(crate) fn home(homes: &[u32], id: ActorId) -> u32
    ensures { result ≡ home_of homes.now id }
{
    homes
        .get(id.0.saturating_sub(1) as usize)
        .copied()
        .unwrap_or(0)
}

/// A list without anybody for each manager. Err is want of memory.
pub(crate) fn empty_lists(alloc: Global, managers: usize) -> Result<Vec<Roomy<ActorId>>, Memory>
    ensures count { IfOk result (λ lists. length lists.items ≡ managers) }
    ensures empty { IfOk result (λ lists. (homes : List ℕ) → IsSplit (home_of homes) [] (map (λ r. r.list) lists.items)) }
{
    let mut lists = Vec::with_capacity(alloc, managers)?;
    for _m in 0..managers {
        lists.push(Roomy::new(alloc))?;
    }
    Ok(lists)
}

fn push<T: Drop>(list: &mut Roomy<T>, item: T) -> Result<(), Memory>
    ensures { OnOk result (list.new.list ≡ list.old.list ++ item ∷ []) }
{
    list.reserve(1)?;
    list.add(item);
    Ok(())
}

/// Empties each list, and keeps its room.
pub(crate) fn clear_all(lists: &mut [Roomy<ActorId>])
    ensures count { length lists.new ≡ length lists.old }
    ensures empty { (homes : List ℕ) → IsSplit (home_of homes) [] (map (λ r. r.list) lists.new) }
{
    for list in lists.iter_mut() {
        list.clear();
    }
}

/// Adds these actors to the lists of their managers, which are empty. Err is want of memory.
fn share_out(lists: &mut [Roomy<ActorId>], homes: &[u32], ids: &[ActorId]) -> Result<(), Memory>
    requires empty { IsSplit (home_of homes.now) [] (map (λ r. r.list) lists.old) }
    requires some { 0 < length lists.old }
    requires homes { AllBelow (length lists.old) homes.now }
    ensures count { length lists.new ≡ length lists.old }
    ensures split { OnOk result (IsSplit (home_of homes.now) ids.now (map (λ r. r.list) lists.new)) }
{
    for id in ids {
        let m = home(homes, *id) as usize;
        push(&mut lists[m], *id)?;
    }
    Ok(())
}

/// Leaves in each list its manager's of these actors. Err is want of memory; all lists are empty then.
pub(crate) fn share(
    lists: &mut [Roomy<ActorId>],
    homes: &[u32],
    ids: &[ActorId],
) -> Result<(), Memory>
    requires some { 0 < length lists.old }
    requires homes { AllBelow (length lists.old) homes.now }
    ensures count { length lists.new ≡ length lists.old }
    ensures split { OnOk result (IsSplit (home_of homes.now) ids.now (map (λ r. r.list) lists.new)) }
    ensures empty { OnErr result (IsSplit (home_of homes.now) [] (map (λ r. r.list) lists.new)) }
{
    clear_all(lists);
    match share_out(lists, homes, ids) {
        Ok(()) => Ok(()),
        Err(_) => {
            clear_all(lists);
            Err(Memory)
        }
    }
}

/// Makes room in each list for its manager's actors of a tick. Err is want of memory.
fn reserve_due<G: Agenda>(
    lists: &mut [Roomy<ActorId>],
    domains: &[Domain<G>],
    tick: u64,
) -> Result<(), Memory>
    requires count { length lists.old ≡ length domains.now }
    ensures count { length lists.new ≡ length lists.old }
    ensures same { map (λ r. r.list) lists.new ≡ map (λ r. r.list) lists.old }
    ensures room { OnOk result ((m : ℕ) (p : List Due) (r : Room ActorId) → slice_get domains.now m ≡ Some p
        → slice_get lists.new m ≡ Some r → length (due_at tick p) ≤ r.spare) }
{
    for m in 0..domains.len() {
        lists[m].reserve(domains[m].due(tick))?;
    }
    Ok(())
}

/// Takes a tick out of each agenda, and appends who asked for it to its list.
fn take_each<G: Agenda>(domains: &mut [Domain<G>], lists: &mut [Roomy<ActorId>], tick: u64)
    requires count { length lists.old ≡ length domains.old }
    requires rooms { (m : ℕ) (p : List Due) (r : Room ActorId) → slice_get domains.old m ≡ Some p
        → slice_get lists.old m ≡ Some r → (r.list ≡ []) × (length (due_at tick p) ≤ r.spare) }
    ensures left { domains.new ≡ map (λ p. without_tick tick p) domains.old }
    ensures taken { map (λ r. r.list) lists.new ≡ map (λ p. due_at tick p) domains.old }
{
    for m in 0..domains.len() {
        domains[m].take_due(tick, &mut lists[m]);
    }
}

/// Leaves in each list its manager's actors of a tick, which is taken out. Err is want of memory; all
/// lists are empty then, and the agendas are as they were.
pub(crate) fn take_all<G: Agenda>(
    domains: &mut [Domain<G>],
    lists: &mut [Roomy<ActorId>],
    tick: u64,
) -> Result<(), Memory>
    requires count { length lists.old ≡ length domains.old }
    ensures count { length lists.new ≡ length lists.old }
    ensures left { OnOk result (domains.new ≡ map (λ p. without_tick tick p) domains.old) }
    ensures taken { OnOk result (map (λ r. r.list) lists.new ≡ map (λ p. due_at tick p) domains.old) }
    ensures same { OnErr result (domains.new ≡ domains.old) }
    ensures empty { OnErr result ((homes : List ℕ) → IsSplit (home_of homes) [] (map (λ r. r.list) lists.new)) }
{
    clear_all(lists);
    reserve_due(lists, domains, tick)?;
    take_each(domains, lists, tick);
    Ok(())
}

/// How many actors stand in all lists.
pub(crate) fn count_items(lists: &[Roomy<ActorId>]) -> usize
    requires few { sum_by (λ r. length r.list) lists.now ≤ 1000000 }
    ensures { result ≡ sum_by (λ r. length r.list) lists.now }
{
    let mut count = 0;
    for list in lists {
        count += list.len();
    }
    count
}

/// The lesser of two ticks, where there are two.
fn earlier_of(one: Option<u64>, other: Option<u64>) -> Option<u64>
    ensures { result ≡ earlier one other }
{
    match (one, other) {
        (None, other) => other,
        (Some(one), None) => Some(one),
        (Some(one), Some(other)) => Some(one.min(other)),
    }
}

/// The least tick of all managers.
pub(crate) fn earliest_of<G: Agenda>(domains: &[Domain<G>]) -> Option<u64>
    ensures { result ≡ earliest None domains.now }
{
    let mut found = None;
    for domain in domains {
        found = earlier_of(found, domain.least());
    }
    found
}
