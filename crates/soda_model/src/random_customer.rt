ghost use Rattle.std.specs.Prelude.{refl};

use crate::buyer::{Buyer, Waiting, shop};
use actor_trait::{Actor, Context, Event, Outcome};
use sim_base::{ActorId, Items, Memory};
use std::alloc::Global;
use std::marker::Model;

/// A customer that waits at random, each wait drawn anew. Its probes are `cans` and `money`.
#[derive(Clone, Copy, Debug, PartialEq, Eq)]
pub struct RandomCustomer {
    /// Where it buys.
    pub machine: ActorId,
    /// The fewest ticks that it waits until it buys again, 1 to 1,000,000,000.
    pub low: u64,
    /// The most ticks that it waits, `low` to 1,000,000,000.
    pub high: u64,
    /// What it has; any number.
    pub money: i64,
    /// What it offers for a can, 0 to 1,000,000.
    pub offer: i64,
    /// How many cans it got; any number.
    pub cans: i64,
}

impl Model for RandomCustomer {
    ghost use Rattle.soda_model.specs.RandomCustomerFields.{IsRandomCustomer, RandomCustomerFields};

    ghost Value = { RandomCustomerFields };

    ghost view = { λ s. record { machine = s.machine; low = s.low; high = s.high; money = s.money; offer = s.offer; cans = s.cans } };

    ghost invariant = { λ s. IsRandomCustomer (record { machine = s.machine; low = s.low; high = s.high; money = s.money; offer = s.offer; cans = s.cans }) };

    ghost inverse = { λ s. record { machine = s.machine; low = s.low; high = s.high; money = s.money; offer = s.offer; cans = s.cans } };
}

impl Waiting for RandomCustomer {
    ghost use Rattle.soda_model.specs.RandomCustomers.{random_wait};

    ghost wait_of = { random_wait };

    fn wait(&self, context: &Context) -> u64 {
        self.low + context.draw(0, self.high - self.low + 1)
    }
}

impl Actor for RandomCustomer {
    ghost use Rattle.soda_model.specs.RandomCustomers.{random_customer_meaning};

    ghost meaning = { random_customer_meaning };

    fn act(
        &self,
        alloc: Global,
        context: &Context,
        event: &Event<'_>,
    ) -> Result<Outcome<Self>, Memory> {
        let buyer = Buyer {
            machine: self.machine,
            offer: self.offer,
            money: self.money,
            cans: self.cans,
        };
        let Outcome {
            state: after,
            sends,
            ticks,
            births: _,
            samples,
            retire,
            fault,
        } = shop(alloc, buyer, self, context, event)?;
        Ok(Outcome {
            state: RandomCustomer {
                money: after.money,
                cans: after.cans,
                ..*self
            },
            sends,
            ticks,
            births: Items::new(alloc),
            samples,
            retire,
            fault,
        })
    }

    fn kind(&self) -> &str {
        "random_customer"
    }

    fn probes(&self) -> u32 {
        2
    }

    fn probe(&self, n: u32) -> &str {
        if n == 0 { "cans" } else { "money" }
    }

    fn copy(&self, _alloc: Global) -> Result<Self, Memory> {
        Ok(*self)
    }

    ghost lawful = { record { kind_is_word = λ _. refl; probes_are_words = λ _. refl; keeps_kind = λ _ _ _. refl; keeps_probes = λ _ _ _. refl } };
}
