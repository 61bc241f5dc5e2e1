ghost use Rattle.std.specs.Prelude.{◌≡◌, IfOk, replicate};
ghost use Rattle.std.specs.List.{fold, list_any};
ghost use Rattle.actor_trait.specs.Seen.{seen};
ghost use Rattle.soda_model.specs.Depots.{is_birth, hear};

use crate::Refill;
use actor_trait::{Bearing, Context, Event, Letter, Sample};
use sim_base::{ActorId, Few, Items, Memory};
use std::alloc::Global;
use std::marker::Model;

/// The balancer, who tells a creator of each birth.
const BALANCER: u32 = 0;

/// The code of a letter that tells of a birth.
const BIRTH: u32 = 0;

/// A depot of cans: at its tick, refills of its machine are born. Its one probe, `trucks`, counts
/// the births that it was told of.
#[derive(Clone, Copy, Debug, PartialEq, Eq)]
pub struct Depot {
    /// Which machine its refills fill.
    pub machine: ActorId,
    /// The tick at which they are born, 1 to 1,000,000,000.
    pub at: u64,
    /// How many they are, 1 to 64.
    pub trucks: u32,
    /// How many cans each brings, 1 to 1,000,000.
    pub cans: i64,
    /// How many were born; any number.
    pub born: i64,
}

impl Model for Depot {
    ghost use Rattle.soda_model.specs.DepotFields.{DepotFields, IsDepot};

    ghost Value = { DepotFields };

    ghost view = { λ s. record { machine = s.machine; at = s.at; trucks = s.trucks; cans = s.cans; born = s.born } };

    ghost invariant = { λ s. IsDepot (record { machine = s.machine; at = s.at; trucks = s.trucks; cans = s.cans; born = s.born }) };

    ghost inverse = { λ s. record { machine = s.machine; at = s.at; trucks = s.trucks; cans = s.cans; born = s.born } };
}

impl Depot {
    ghost use Rattle.soda_model.specs.Depots.{depot_bears, refill_of};

    /// What comes of an event. Err is want of memory.
    pub fn bear(
        &self,
        alloc: Global,
        context: &Context,
        event: &Event<'_>,
    ) -> Result<Bearing<Depot, Refill>, Memory>
        ensures { IfOk result (λ bearing. bearing ≡ depot_bears self.now context.entry.now (seen event.now.first event.now.spontaneous event.now.inbox.now)) }
    {
        let mut ticks = Few::new(alloc);
        let mut samples = Few::new(alloc);
        if event.first {
            ticks.add(self.at)?;
        }
        let births = if event.spontaneous {
            self.refills(alloc)?
        } else {
            Items::new(alloc)
        };
        let state = count_births(*self, event.inbox);
        if has_birth(event.inbox) {
            let sample = Sample {
                probe: 0,
                value: state.born,
            };
            samples.add(sample)?;
        }
        Ok(Bearing {
            state,
            sends: Few::new(alloc),
            ticks,
            births,
            samples,
            retire: false,
        })
    }

    /// Its refills, before they are born.
    fn refills(&self, alloc: Global) -> Result<Items<Refill>, Memory>
        ensures { IfOk result (λ refills. refills ≡ replicate self.now.trucks (refill_of self.now)) }
    {
        let refill = Refill {
            machine: self.machine,
            cans: self.cans,
        };
        Ok(Items::of(vec![in alloc; refill; self.trucks as usize]?))
    }

    /// Counts a birth; any other letter is ignored.
    fn hear(&mut self, letter: &Letter)
        ensures { self.new ≡ hear self.old letter.now }
    {
        if is_birth(letter) {
            self.born = self.born.saturating_add(1);
        }
    }
}

fn count_births(depot: Depot, inbox: &[Letter]) -> Depot
    ensures { result ≡ fold hear depot inbox.now }
{
    let mut depot = depot;
    for letter in inbox {
        depot.hear(letter);
    }
    depot
}

/// Whether a letter is the balancer's, of a birth.
fn is_birth(letter: &Letter) -> bool
    ensures { result ≡ is_birth letter.now }
{
    letter.from.0 == BALANCER && letter.payload.code == BIRTH
}

fn has_birth(inbox: &[Letter]) -> bool
    ensures { result ≡ list_any is_birth inbox.now }
{
    inbox.iter().any(|letter| is_birth(letter))
}
