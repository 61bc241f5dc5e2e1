ghost use Rattle.std.specs.Prelude.{◌≡◌, ◌++◌, OnOk, refl};

use crate::{Actor, Context, Event, Outcome, Sample};
use sim_base::{Few, Items, Memory};
use std::alloc::Global;
use std::marker::Model;

/// An actor that beats at regular ticks: `count` beats, `period` ticks apart. Its one probe, `beats`,
/// counts them.
#[derive(Clone, Copy, Debug, PartialEq, Eq)]
pub struct Clock {
    /// Ticks between two beats, 1 to 1,000,000,000.
    pub period: u64,
    /// How often it beats, 0 to 1,000,000,000.
    pub count: i64,
    /// How often it has.
    pub beats: i64,
}

impl Model for Clock {
    ghost use Rattle.actor_trait.specs.ClockFields.{ClockFields, IsClock};

    ghost Value = { ClockFields };

    ghost view = { λ s. record { period = s.period; count = s.count; beats = s.beats } };

    ghost invariant = { λ s. IsClock (record { period = s.period; count = s.count; beats = s.beats }) };

    ghost inverse = { λ s. record { period = s.period; count = s.count; beats = s.beats } };
}

impl Clock {
    ghost use Rattle.actor_trait.specs.Clocks.{next_beat};

    /// While beats are left, asks the tick one period later.
    fn ask(&self, context: &Context, ticks: &mut Few<u64, 1>) -> Result<(), Memory>
        ensures { OnOk result (ticks.new ≡ ticks.old ++ next_beat self.now context.entry.now) }
    {
        if self.beats < self.count {
            let next = context.now.tick.saturating_add(self.period);
            ticks.add(next)?;
        }
        Ok(())
    }
}

impl Actor for Clock {
    ghost use Rattle.actor_trait.specs.Clocks.{clock_meaning};

    ghost meaning = { clock_meaning };

    fn act(
        &self,
        alloc: Global,
        context: &Context,
        event: &Event<'_>,
    ) -> Result<Outcome<Self>, Memory> {
        let mut ticks = Few::new(alloc);
        let mut samples = Few::new(alloc);
        let mut state = *self;
        if event.first {
            self.ask(context, &mut ticks)?;
        }
        if event.spontaneous {
            state.beats = state.beats.saturating_add(1);
            let sample = Sample {
                probe: 0,
                value: state.beats,
            };
            samples.add(sample)?;
            state.ask(context, &mut ticks)?;
        }
        Ok(Outcome {
            state,
            sends: Few::new(alloc),
            ticks,
            births: Items::new(alloc),
            samples,
            retire: false,
            fault: None,
        })
    }

    fn kind(&self) -> &str {
        "clock"
    }

    fn probes(&self) -> u32 {
        1
    }

    fn probe(&self, _n: u32) -> &str {
        "beats"
    }

    fn copy(&self, _alloc: Global) -> Result<Self, Memory> {
        Ok(*self)
    }

    ghost lawful = { record { kind_is_word = λ _. refl; probes_are_words = λ _. refl; keeps_kind = λ _ _ _. refl; keeps_probes = λ _ _ _. refl } };
}
