ghost use Rattle.std.specs.Prelude.{◌≡◌, ◌≢◌, length};
ghost use Rattle.local_manager.specs.declared.phase.Phase.TheVariants as phase;

use crate::World;
use actor_trait::Actor;
use agenda::Agenda;
use sim_model::Parameters;

impl<A: Actor + Drop, G: Agenda + Drop> World<A, G> {
    /// What the setup says besides its actors.
    pub fn parameters(&self) -> &Parameters
        ensures { result.now ≡ self.now.one.parameters }
    {
        &self.parameters
    }

    /// How many letters found no living recipient so far; the count stands still at the end of u64.
    pub fn dead_letters(&self) -> u64
        ensures { result ≡ self.now.one.dead_letters }
    {
        self.dead_letters
    }

    /// How many actors are scheduled at all managers together. None unless a moment is entered.
    pub fn count_scheduled(&self) -> usize
        requires standing { self.now.phase ≢ phase.Torn }
        ensures { result ≡ length self.now.one.scheduled }
    {
        self.directory.count_scheduled()
    }
}
