ghost use Rattle.std.specs.Prelude.{◌≡◌, ◌<◌, ◌≤◌, ◌%◌, length, sum};
ghost use Rattle.placement.specs.Placing.{least_loaded, place_of};

use crate::Policy;
use sim_base::{ActorId, ManagerId, Name};

// The first place at which no load is less.
fn least_loaded_place(loads: &[u32]) -> usize
    requires { 1 ≤ length loads.now }
    ensures place { result ≡ least_loaded loads.now }
    ensures within { result < length loads.now }
{
    let mut best = 0;
    for (place, load) in loads.iter().enumerate() {
        if *load < loads[best] {
            best = place;
        }
    }
    best
}

// The sum of the bytes of a name.
fn byte_sum(name: &Name) -> u32
    ensures { result ≡ sum name.now }
{
    name.as_bytes().iter().map(|byte| u32::from(*byte)).sum()
}

/// The manager of a new actor: a place of `loads`, which says how many living actors each of 1 to
/// 16 managers has. `RoundRobin` gives actor 1 the first manager, and each next actor the next one
/// in turn. `ByName` takes the sum of the name's bytes modulo the number of managers.
/// `LeastLoaded` takes the first of the managers whose load is least. It takes no memory.
pub fn place(policy: Policy, id: ActorId, name: &Name, loads: &[u32]) -> ManagerId
    requires actor { 1 ≤ id.0 }
    requires least_managers { 1 ≤ length loads.now }
    requires most_managers { length loads.now ≤ 16 }
    ensures place { result.0 ≡ place_of policy id.0 name.now loads.now }
    ensures within { result.0 < length loads.now }
{
    let managers = loads.len() as u32;
    ManagerId(match policy {
        Policy::RoundRobin => (id.0 - 1) % managers,
        Policy::ByName => byte_sum(name) % managers,
        Policy::LeastLoaded => least_loaded_place(loads) as u32,
    })
}
