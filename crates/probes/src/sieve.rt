ghost use Rattle.std.specs.Prelude.{◌≡◌, ℕ, Bool, true};
ghost use Rattle.sim_base.specs.declared.ids.ActorId.{ActorId};

use sim_base::ActorId;

/// What says which samples of a run are kept.
pub trait Sieve {
    /// Whether it keeps what an actor samples at a probe.
    ghost keeps: { Self → ActorId → ℕ → Bool };

    /// Whether it keeps what an actor samples at the probe of this number.
    fn keeps(&self, actor: ActorId, probe: u32) -> bool
        ensures { result ≡ keeps self.now actor probe };
}

/// The sieve that keeps all samples.
#[derive(Clone, Copy, Debug, PartialEq, Eq)]
pub struct KeepAll;

impl Sieve for KeepAll {
    ghost keeps = { λ _ _ _. true };

    fn keeps(&self, _actor: ActorId, _probe: u32) -> bool {
        true
    }
}
