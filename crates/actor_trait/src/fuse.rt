ghost use Rattle.std.specs.Prelude.{◌≡◌, [], Some, refl};

use crate::{Actor, Context, Event, FaultCode, Outcome};
use sim_base::{Few, Items, Memory};
use std::alloc::Global;
use std::marker::Model;

/// An actor that ends the run with a fault. It has no probe.
#[derive(Clone, Copy, Debug, PartialEq, Eq)]
pub struct Fuse {
    /// The tick at which it burns, 0 to 1,000,000,000.
    pub at: u64,
    /// The fault that it shows then, 1 to 899.
    pub code: u32,
}

impl Model for Fuse {
    ghost use Rattle.actor_trait.specs.FuseFields.{FuseFields, IsFuse};

    ghost Value = { FuseFields };

    ghost view = { λ s. record { at = s.at; code = s.code } };

    ghost invariant = { λ s. IsFuse (record { at = s.at; code = s.code }) };

    ghost inverse = { λ s. record { at = s.at; code = s.code } };
}

impl Fuse {
    fn fault(&self) -> Option<FaultCode>
        ensures { result ≡ Some self.now.code }
    {
        FaultCode::of(self.code)
    }
}

impl Actor for Fuse {
    ghost use Rattle.actor_trait.specs.Fuses.{fuse_meaning};

    ghost meaning = { fuse_meaning };

    fn act(
        &self,
        alloc: Global,
        _context: &Context,
        event: &Event<'_>,
    ) -> Result<Outcome<Self>, Memory> {
        let mut ticks = Few::new(alloc);
        if event.first && self.at != 0 {
            ticks.add(self.at)?;
        }
        let burns = (event.first && self.at == 0) || event.spontaneous;
        Ok(Outcome {
            state: *self,
            sends: Few::new(alloc),
            ticks,
            births: Items::new(alloc),
            samples: Few::new(alloc),
            retire: false,
            fault: if burns { self.fault() } else { None },
        })
    }

    fn kind(&self) -> &str {
        "fuse"
    }

    fn probes(&self) -> u32 {
        0
    }

    // It declares no probe, so no number meets the condition that an actor with probes has here.
    fn probe(&self, _n: u32) -> &str
        ensures { result.now ≡ [] }
    {
        ""
    }

    fn copy(&self, _alloc: Global) -> Result<Self, Memory> {
        Ok(*self)
    }

    ghost lawful = { record { kind_is_word = λ _. refl; probes_are_words = λ _. refl; keeps_kind = λ _ _ _. refl; keeps_probes = λ _ _ _. refl } };
}
