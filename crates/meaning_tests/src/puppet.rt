ghost use Rattle.std.specs.Prelude.{◌≡◌, IfOk, map, replicate, refl};
ghost use Rattle.meaning_tests.specs.Puppets.{heard, listener, said, taken, times};

use actor_trait::{Actor, Context, Event, FaultCode, Letter, Outcome, Parcel, Payload, Sample};
use sim_base::{ActorId, Few, Items, Memory};
use std::alloc::{AllocError, Global};

/// An actor that does what its fields tell, be it allowed or not, at its tick and at each that it
/// asks for. At every other event it samples what its letters say, on its one probe, `heard`.
#[derive(Clone, Copy, Debug, PartialEq, Eq)]
pub struct Puppet {
    /// The first tick of its deed; with 0 it only listens.
    pub at: u64,
    /// How many letters it sends.
    pub sends: u32,
    /// What they say.
    pub says: i64,
    /// To whom.
    pub to: ActorId,
    /// How often it asks for a tick.
    pub ticks: u32,
    /// For which.
    pub next: u64,
    /// How many listeners it bears.
    pub births: u32,
    /// How many samples it takes.
    pub samples: u32,
    /// Of which probe.
    pub probe: u32,
    /// Whether it retires.
    pub retires: bool,
    /// The fault that it shows, 1 to 899; with another number none.
    pub fault: u32,
}

/// A puppet that only listens.
pub const LISTENER: Puppet = Puppet {
    at: 0,
    sends: 0,
    says: 5,
    to: ActorId(0),
    ticks: 0,
    next: 0,
    births: 0,
    samples: 0,
    probe: 0,
    retires: false,
    fault: 0,
};

impl Puppet {
    ghost use Rattle.meaning_tests.specs.Puppets.{puppet_asks};
    ghost use Rattle.actor_trait.specs.Seen.{seen};

    /// The letter that it sends.
    fn said(&self) -> Parcel
        ensures { result ≡ said self.now }
    {
        Parcel {
            to: self.to,
            payload: Payload {
                code: 7,
                a: self.says,
                b: 0,
            },
        }
    }

    fn asks(&self, alloc: Global, event: &Event<'_>) -> Result<Few<u64, 1>, Memory>
        ensures { IfOk result (λ ticks. ticks ≡ puppet_asks self.now (seen event.now.first event.now.spontaneous event.now.inbox.now)) }
    {
        if event.spontaneous {
            return Ok(Few::of(vec![in alloc; self.next; self.ticks as usize]?));
        }
        let n = times(event.first && self.at != 0, 1);
        Ok(Few::of(vec![in alloc; self.at; n as usize]?))
    }

    fn sends(&self, alloc: Global, acts: bool) -> Result<Few<Parcel, 1>, Memory>
        ensures { IfOk result (λ sends. sends ≡ replicate (times acts self.now.sends) (said self.now)) }
    {
        let n = times(acts, self.sends);
        Ok(Few::of(vec![in alloc; self.said(); n as usize]?))
    }

    fn births(&self, alloc: Global, acts: bool) -> Result<Items<Puppet>, Memory>
        ensures { IfOk result (λ births. births ≡ replicate (times acts self.now.births) listener) }
    {
        let n = times(acts, self.births);
        Ok(Items::of(vec![in alloc; LISTENER; n as usize]?))
    }

    fn samples(&self, alloc: Global) -> Result<Few<Sample, 2>, Memory>
        ensures { IfOk result (λ samples. samples ≡ replicate self.now.samples (taken self.now)) }
    {
        let taken = Sample {
            probe: self.probe,
            value: 0,
        };
        Ok(Few::of(vec![in alloc; taken; self.samples as usize]?))
    }
}

/// So many, or none.
fn times(happens: bool, n: u32) -> u32
    ensures { result ≡ times happens n }
{
    if happens { n } else { 0 }
}

fn heard(letter: &Letter) -> Sample
    ensures { result ≡ heard letter.now }
{
    Sample {
        probe: 0,
        value: letter.payload.a,
    }
}

/// What each letter says.
fn hear(alloc: Global, inbox: &[Letter]) -> Result<Vec<Sample>, AllocError>
    ensures { IfOk result (λ samples. samples.items ≡ map heard inbox.now) }
{
    inbox.iter().map(|letter| heard(letter)).collect(alloc)
}

impl Actor for Puppet {
    ghost use Rattle.meaning_tests.specs.Puppets.{puppet_meaning};

    ghost meaning = { puppet_meaning };

    fn act(
        &self,
        alloc: Global,
        _context: &Context,
        event: &Event<'_>,
    ) -> Result<Outcome<Self>, Memory> {
        let acts = event.spontaneous;
        let samples = if acts {
            self.samples(alloc)?
        } else {
            Few::of(hear(alloc, event.inbox)?)
        };
        Ok(Outcome {
            state: *self,
            sends: self.sends(alloc, acts)?,
            ticks: self.asks(alloc, event)?,
            births: self.births(alloc, acts)?,
            samples,
            retire: acts && self.retires,
            fault: if acts {
                FaultCode::of(self.fault)
            } else {
                None
            },
        })
    }

    fn kind(&self) -> &str {
        "puppet"
    }

    fn probes(&self) -> u32 {
        1
    }

    fn probe(&self, _n: u32) -> &str {
        "heard"
    }

    fn copy(&self, _alloc: Global) -> Result<Self, Memory> {
        Ok(*self)
    }

    ghost lawful = { record { kind_is_word = λ _. refl; probes_are_words = λ _. refl; keeps_kind = λ _ _ _. refl; keeps_probes = λ _ _ _. refl } };
}
