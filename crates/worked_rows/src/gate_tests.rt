use crate::calls::{bytes_of, call};
use crate::rows::{ENDS, TWO_CLOCKS};
use sim_base::Gate;
use std::sync::atomic::{AtomicU64, Ordering};
use std::test::Fail;
use std::thread;

/// How often a held hand looks whether the other came, before it gives up.
const LOOKS: u32 = 4_000_000;

/// A gate that holds the hands 0 and 1 at their first claims of the run until both came there.
#[derive(Drop)]
struct MeetingGate {
    /// A bit for each of the two that came.
    came: AtomicU64,
    /// How many saw the other while they were held.
    met: AtomicU64,
}

impl MeetingGate {
    fn new() -> MeetingGate {
        MeetingGate {
            came: AtomicU64::new(0),
            met: AtomicU64::new(0),
        }
    }
}

impl Gate for MeetingGate {
    fn pass(&self, hand: u32, _turn: u64) {
        if hand > 1 {
            return;
        }
        let mine = 1u64 << hand;
        if self.came.fetch_or(mine, Ordering::SeqCst) & mine != 0 {
            return;
        }
        for _look in 0..LOOKS {
            if self.came.load(Ordering::SeqCst) == 3 {
                self.met.fetch_add(1, Ordering::SeqCst);
                return;
            }
            thread::yield_now();
        }
    }
}

/// Two workers stand side by side at their first claims, and the text is that of the run.
#[test]
fn two_hands_claim_side_by_side(rt: HostRuntime) -> Result<(), Fail> {
    let gate = MeetingGate::new();
    let input = bytes_of(rt.alloc(), TWO_CLOCKS.scenario)?;
    let words = ["run", "--managers", "2", "--workers", "2"];
    let came = call(&rt, &words, input, ENDS, &gate)?;
    let is_so = came.is(TWO_CLOCKS.status, TWO_CLOCKS.text, "") && came.rounds == TWO_CLOCKS.rounds;
    assert!(rt; is_so && gate.met.load(Ordering::SeqCst) == 2);
    Ok(())
}
