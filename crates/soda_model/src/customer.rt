ghost use Rattle.std.specs.Prelude.{refl};

use crate::buyer::{Buyer, Waiting, shop};
use actor_trait::{Actor, Context, Event, Outcome};
use sim_base::{ActorId, Items, Memory};
use std::alloc::Global;
use std::marker::Model;

/// A customer that buys at regular ticks while it has the money. Its probes are `cans` and `money`.
#[derive(Clone, Copy, Debug, PartialEq, Eq)]
pub struct Customer {
    /// Where it buys.
    pub machine: ActorId,
    /// How many ticks it waits until it buys again, 1 to 1,000,000,000.
    pub period: u64,
    /// What it has; any number.
    pub money: i64,
    /// What it offers for a can, 0 to 1,000,000.
    pub offer: i64,
    /// How many cans it got; any number.
    pub cans: i64,
}

impl Model for Customer {
    ghost use Rattle.soda_model.specs.CustomerFields.{CustomerFields, IsCustomer};

    ghost Value = { CustomerFields };

    ghost view = { λ s. record { machine = s.machine; period = s.period; money = s.money; offer = s.offer; cans = s.cans } };

    ghost invariant = { λ s. IsCustomer (record { machine = s.machine; period = s.period; money = s.money; offer = s.offer; cans = s.cans }) };

    ghost inverse = { λ s. record { machine = s.machine; period = s.period; money = s.money; offer = s.offer; cans = s.cans } };
}

impl Waiting for Customer {
    ghost wait_of = { λ s _. s.period };

    fn wait(&self, _context: &Context) -> u64 {
        self.period
    }
}

impl Actor for Customer {
    ghost use Rattle.soda_model.specs.Customers.{customer_meaning};

    ghost meaning = { customer_meaning };

    fn act(
        &self,
        alloc: Global,
        context: &Context,
        event: &Event<'_>,
    ) -> Result<Outcome<Self>, Memory> {
        let buyer = Buyer {
            machine: self.machine,
            offer: self.offer,
            money: self.money,
            cans: self.cans,
        };
        let Outcome {
            state: after,
            sends,
            ticks,
            births: _,
            samples,
            retire,
            fault,
        } = shop(alloc, buyer, self, context, event)?;
        Ok(Outcome {
            state: Customer {
                money: after.money,
                cans: after.cans,
                ..*self
            },
            sends,
            ticks,
            births: Items::new(alloc),
            samples,
            retire,
            fault,
        })
    }

    fn kind(&self) -> &str {
        "customer"
    }

    fn probes(&self) -> u32 {
        2
    }

    fn probe(&self, n: u32) -> &str {
        if n == 0 { "cans" } else { "money" }
    }

    fn copy(&self, _alloc: Global) -> Result<Self, Memory> {
        Ok(*self)
    }

    ghost lawful = { record { kind_is_word = λ _. refl; probes_are_words = λ _. refl; keeps_kind = λ _ _ _. refl; keeps_probes = λ _ _ _. refl } };
}
