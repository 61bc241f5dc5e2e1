ghost use Rattle.std.specs.Prelude.{refl};

use crate::letters::{FILL, send};
use actor_trait::{Actor, Context, Event, Outcome, Sample};
use sim_base::{ActorId, Few, Items, Memory};
use std::alloc::Global;
use std::marker::Model;

/// A load of cans on its way. At its first event it fills its machine and retires. Its one probe is
/// `cans`.
#[derive(Clone, Copy, Debug, PartialEq, Eq)]
pub struct Refill {
    /// Which machine it fills.
    pub machine: ActorId,
    /// With how many cans, 1 to 1,000,000.
    pub cans: i64,
}

impl Model for Refill {
    ghost use Rattle.soda_model.specs.RefillFields.{IsLoad, RefillFields};

    ghost Value = { RefillFields };

    ghost view = { λ s. record { machine = s.machine; cans = s.cans } };

    ghost invariant = { λ s. IsLoad s.cans };

    ghost inverse = { λ s. record { machine = s.machine; cans = s.cans } };
}

impl Actor for Refill {
    ghost use Rattle.soda_model.specs.Refills.{refill_meaning};

    ghost meaning = { refill_meaning };

    fn act(
        &self,
        alloc: Global,
        _context: &Context,
        event: &Event<'_>,
    ) -> Result<Outcome<Self>, Memory> {
        let mut sends = Few::new(alloc);
        let mut samples = Few::new(alloc);
        if event.first {
            let sample = Sample {
                probe: 0,
                value: self.cans,
            };
            samples.add(sample)?;
            send(&mut sends, self.machine, FILL, self.cans, 0)?;
        }
        Ok(Outcome {
            state: *self,
            sends,
            ticks: Few::new(alloc),
            births: Items::new(alloc),
            samples,
            retire: event.first,
            fault: None,
        })
    }

    fn kind(&self) -> &str {
        "refill"
    }

    fn probes(&self) -> u32 {
        1
    }

    fn probe(&self, _n: u32) -> &str {
        "cans"
    }

    fn copy(&self, _alloc: Global) -> Result<Self, Memory> {
        Ok(*self)
    }

    ghost lawful = { record { kind_is_word = λ _. refl; probes_are_words = λ _. refl; keeps_kind = λ _ _ _. refl; keeps_probes = λ _ _ _. refl } };
}
