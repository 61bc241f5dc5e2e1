ghost use Rattle.std.specs.Prelude.{◌≡◌, ◌+◌, ◌<◌, ◌≤◌, length, replicate};
ghost use Rattle.placement.specs.Placing.{AreBelow, counted, place_of};

use crate::Policy;
use crate::placing::place;
use sim_base::{ActorId, ManagerId, Name};
use std::marker::Model;

/// The most managers.
const MOST: usize = 16;

/// How many living actors each of 1 to 16 managers has. Contracts see the list of these numbers.
#[derive(Drop)]
pub struct Loads {
    counts: [u32; MOST],
    managers: usize,
}

impl Model for Loads {
    ghost use Rattle.std.specs.Prelude.{◌≡◌, ◌≤◌, List, ℕ, length, take};

    ghost Value = { List ℕ };

    ghost view = { λ l. take l.managers l.counts };

    ghost invariant = { λ l. (1 ≤ l.managers) × (l.managers ≤ 16) × (length l.counts ≡ 16) };
}

impl Loads {
    /// No actor yet, at any of 1 to 16 managers.
    pub fn none(managers: u32) -> Loads
        requires least { 1 ≤ managers }
        requires most { managers ≤ 16 }
        ensures none { result ≡ replicate managers 0 }
        ensures fewer { AreBelow 1 result }
    {
        Loads {
            counts: [0; MOST],
            managers: managers as usize,
        }
    }

    /// The manager of a new actor, by `place`; the actor is counted there. Each manager has to have
    /// fewer actors than the number of the new one, as always where actors are numbered from 1. It takes
    /// no memory.
    pub fn place(&mut self, policy: Policy, id: ActorId, name: &Name) -> ManagerId
        requires actor { 1 ≤ id.0 }
        requires fewer { AreBelow id.0 self.old }
        ensures place { result.0 ≡ place_of policy id.0 name.now self.old }
        ensures counted { self.new ≡ counted self.old result.0 }
        ensures still_fewer { AreBelow (id.0 + 1) self.new }
        ensures within { result.0 < length self.old }
    {
        let manager = place(policy, id, name, &self.counts[..self.managers]);
        self.counts[manager.0 as usize] += 1;
        manager
    }
}
