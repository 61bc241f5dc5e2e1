use crate::moments::{harvest_of, world_of};
use sim_base::Gate;
use std::sync::atomic::{AtomicU64, Ordering};
use std::test::Fail;
use std::thread;

/// How often a held hand looks whether the other came, before it gives up.
const LOOKS: u32 = 4_000_000;

/// A gate that holds the first two hands at their first claims until both came there.
#[derive(Drop)]
struct MeetingGate {
    /// A bit for each of the two that came.
    came: AtomicU64,
    /// How many saw the other while they were held.
    met: AtomicU64,
}

impl Gate for MeetingGate {
    fn pass(&self, hand: u32, turn: u64) {
        if hand > 1 || turn > 0 {
            return;
        }
        self.came.fetch_or(1u64 << hand, Ordering::SeqCst);
        for _look in 0..LOOKS {
            if self.came.load(Ordering::SeqCst) == 3 {
                self.met.fetch_add(1, Ordering::SeqCst);
                return;
            }
            thread::yield_now();
        }
    }
}

#[test]
fn two_hands_meet_at_their_first_claims(rt: HostRuntime) -> Result<(), Fail> {
    let alloc = rt.alloc();
    let world = world_of(&rt, alloc, 2)?;
    let gate = MeetingGate {
        came: AtomicU64::new(0),
        met: AtomicU64::new(0),
    };
    harvest_of(&rt, alloc, &world, 2, &gate)?;
    assert_eq!(rt; gate.met.load(Ordering::SeqCst), 2);
    Ok(())
}
