ghost use Rattle.std.specs.Prelude.{◌≡◌, refl};
ghost use Rattle.engine_tests.specs.Elders.{heir, heirs_at, sample};

use actor_trait::{Actor, Context, Event, Outcome, Sample};
use sim_base::{Few, Items, Memory};
use std::alloc::Global;

/// An actor that bears its heir at its first event and retires, unless it is the last. Its one probe,
/// `left`, tells how many are to come.
#[derive(Clone, Copy, Debug, PartialEq, Eq)]
pub struct Elder {
    /// How many heirs are to come after it.
    pub left: u32,
}

impl Elder {
    /// The next, to whom one fewer is left.
    fn heir(&self) -> Elder
        ensures { result ≡ heir self.now }
    {
        Elder {
            left: self.left.saturating_sub(1),
        }
    }

    fn sample(&self) -> Sample
        ensures { result ≡ sample self.now }
    {
        Sample {
            probe: 0,
            value: i64::from(self.left),
        }
    }
}

/// How many heirs are born at an event: one at the first, while any is left.
fn heirs_at(first: bool, left: u32) -> u32
    ensures { result ≡ heirs_at first left }
{
    if first { left.min(1) } else { 0 }
}

impl Actor for Elder {
    ghost use Rattle.engine_tests.specs.Elders.{elder_meaning};

    ghost meaning = { elder_meaning };

    fn act(
        &self,
        alloc: Global,
        _context: &Context,
        event: &Event<'_>,
    ) -> Result<Outcome<Self>, Memory> {
        let heirs = heirs_at(event.first, self.left);
        Ok(Outcome {
            state: *self,
            sends: Few::new(alloc),
            ticks: Few::new(alloc),
            births: Items::of(vec![in alloc; self.heir(); heirs as usize]?),
            samples: Few::of(vec![in alloc; self.sample(); 1]?),
            retire: heirs == 1,
            fault: None,
        })
    }

    fn kind(&self) -> &str {
        "elder"
    }

    fn probes(&self) -> u32 {
        1
    }

    fn probe(&self, _n: u32) -> &str {
        "left"
    }

    fn copy(&self, _alloc: Global) -> Result<Self, Memory> {
        Ok(*self)
    }

    ghost lawful = { record { kind_is_word = λ _. refl; probes_are_words = λ _. refl; keeps_kind = λ _ _ _. refl; keeps_probes = λ _ _ _. refl } };
}
