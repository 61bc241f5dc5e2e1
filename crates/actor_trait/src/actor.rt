ghost use Rattle.std.specs.Prelude.{◌≡◌, ◌<◌, [], length, slice_index_or, IfOk};
ghost use Rattle.actor_trait.specs.Meaning.{IsLawful, Meaning};
ghost use Rattle.actor_trait.specs.Seen.{seen};

use crate::{Context, Event, Outcome};
use sim_base::Memory;
use std::alloc::Global;

/// An actor's state, with what it does at an event.
pub trait Actor: Sized {
    /// What the methods mean.
    ghost meaning: { Meaning Self };

    /// What comes of an event. Err is want of memory.
    fn act(
        &self,
        alloc: Global,
        context: &Context,
        event: &Event<'_>,
    ) -> Result<Outcome<Self>, Memory>
        ensures { IfOk result (λ outcome. outcome ≡ meaning.acts self.now context.entry.now
            (seen event.now.first event.now.spontaneous event.now.inbox.now)) };

    /// The name of the actor's kind, 1 to 20 characters of a name.
    fn kind(&self) -> &str
        ensures { result.now ≡ meaning.kind self.now };

    /// How many probes the kind declares.
    fn probes(&self) -> u32
        ensures { result ≡ length (meaning.probes self.now) };

    /// The name of a probe, 1 to 20 characters of a name.
    fn probe(&self, n: u32) -> &str
        requires { n < length (meaning.probes self.now) }
        ensures { result.now ≡ slice_index_or (meaning.probes self.now) n [] };

    /// An equal state. Err is want of memory.
    fn copy(&self, alloc: Global) -> Result<Self, Memory>
        ensures { IfOk result (λ copy. copy ≡ self.now) };

    ghost lawful: { IsLawful meaning };
}
