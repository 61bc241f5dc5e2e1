ghost use Rattle.std.specs.Prelude.{◌≡◌, ◌≤◌, map, vec_len, IfOk};

use quiescence::Hand;
use sim_base::Memory;
use std::alloc::Global;

/// A hand with its number among those of its round.
#[derive(Drop)]
pub(crate) struct Seat {
    pub hand: Hand,
    pub number: u32,
}

/// The hands, numbered from 0. Err is want of memory.
pub(crate) fn seats_of(alloc: Global, hands: Vec<Hand>) -> Result<Vec<Seat>, Memory>
    requires { vec_len hands ≤ 64 }
    ensures { IfOk result (λ seats. map (λ s. s.hand) seats.items ≡ hands.items) }
{
    let mut seats = Vec::with_capacity(alloc, hands.len())?;
    let mut number = 0;
    for hand in hands {
        seats.push(Seat { hand, number })?;
        number += 1;
    }
    Ok(seats)
}
