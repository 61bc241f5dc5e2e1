ghost use Rattle.std.specs.Prelude.{◌≡◌, ◌+◌, ◌<◌, ◌≤◌, ◌++◌, ℕ, [], List, length, IfOk, OnOk, OnErr};
ghost use Rattle.agenda.specs.Dues.{add_due, due_at, without_tick, without_actor, ticks_of as ticks_in, least as least_of, Rises};

use sim_base::{ActorId, Items, Memory, Roomy};
use std::alloc::Global;

/// Who asked for which tick: pairs in ascending order, nothing twice.
/// Room for pairs and for ids is reserved where want of memory can be answered, and used where it
/// can't. Err is want of memory in every call that has it.
pub trait Agenda: Sized {
    ghost use Rattle.agenda.specs.declared.due.Due.{Due};

    /// The pairs, ascending by tick and then by actor.
    ghost pairs: { Self → List Due };

    /// How many pairs more go in without taking memory. No call but `add` lessens it.
    ghost spare: { Self → ℕ };

    /// The greatest id that may be added. No call lessens it.
    ghost top: { Self → ℕ };

    /// The empty agenda, which grows by this allocator.
    fn new(alloc: Global) -> Result<Self, Memory>
        ensures { IfOk result (λ agenda. pairs agenda ≡ []) };

    /// Makes room for `count` pairs more, at least, and for ids up to `id`. Err changes nothing.
    fn reserve(&mut self, count: usize, id: ActorId) -> Result<(), Memory>
        ensures same { pairs self.new ≡ pairs self.old }
        ensures room { OnOk result ((count ≤ spare self.new) × (id.0 ≤ top self.new)) }
        ensures spare { spare self.old ≤ spare self.new }
        ensures top { top self.old ≤ top self.new }
        ensures refused { OnErr result ((spare self.new ≡ spare self.old) × (top self.new ≡ top self.old)) };

    /// Adds a pair, for which there is room; one that is there changes nothing. It takes no memory.
    fn add(&mut self, tick: u64, actor: ActorId)
        requires room { 0 < spare self.old }
        requires known { actor.0 ≤ top self.old }
        ensures pairs { pairs self.new ≡ add_due (record { tick = tick; actor = actor }) (pairs self.old) }
        ensures spare { spare self.old ≤ spare self.new + 1 }
        ensures top { top self.new ≡ top self.old };

    /// How many actors asked for a tick.
    fn due(&self, tick: u64) -> usize
        ensures { result ≡ length (due_at tick (pairs self.now)) };

    /// Appends the actors that asked for a tick in ascending order, for which there is room, and
    /// removes their pairs of that tick. It takes no memory.
    fn take_due(&mut self, tick: u64, into: &mut Roomy<ActorId>)
        requires { length (due_at tick (pairs self.old)) ≤ into.old.spare }
        ensures taken { into.new.list ≡ into.old.list ++ due_at tick (pairs self.old) }
        ensures room { into.new.spare + length (due_at tick (pairs self.old)) ≡ into.old.spare }
        ensures left { pairs self.new ≡ without_tick tick (pairs self.old) }
        ensures spare { spare self.old ≤ spare self.new }
        ensures top { top self.new ≡ top self.old };

    /// Removes all pairs of an actor. It takes no memory.
    fn drop_actor(&mut self, actor: ActorId)
        ensures left { pairs self.new ≡ without_actor actor (pairs self.old) }
        ensures spare { spare self.old ≤ spare self.new }
        ensures top { top self.new ≡ top self.old };

    /// The least tick that an actor asked for; None exactly where there is no pair.
    fn least(&self) -> Option<u64>
        ensures value { result ≡ least_of (pairs self.now) }
        ensures order { Rises (pairs self.now) };

    /// The ticks that an actor asked for, ascending.
    fn ticks_of(&self, alloc: Global, actor: ActorId) -> Result<Items<u64>, Memory>
        ensures { IfOk result (λ ticks. ticks ≡ ticks_in actor (pairs self.now)) };
}
