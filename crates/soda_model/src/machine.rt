ghost use Rattle.std.specs.Prelude.{◌≡◌, IfOk, OnOk, refl};
ghost use Rattle.std.specs.List.{count_by, fold, list_any};
ghost use Rattle.soda_model.specs.Letters.{has_code};
ghost use Rattle.soda_model.specs.Machines.{is_asked, serve};

use crate::letters::{CAN, FILL, OFFER, REFUND, SOLD_OUT, TOO_LITTLE, send};
use actor_trait::{Actor, Context, Event, Letter, Outcome, Parcel, Sample};
use sim_base::{ActorId, Few, Items, Memory};
use std::alloc::Global;
use std::marker::Model;

/// The most cans that a fill leaves in a machine.
const CEILING: i64 = 1_000_000_000;

/// A vending machine. It sells a can for its price and gives the change, or gives the money back;
/// it takes fills up to 1,000,000,000 cans, and retires when it closes. Its probes are `stock` and
/// `coins`.
#[derive(Clone, Copy, Debug, PartialEq, Eq)]
pub struct Machine {
    /// How many cans it has; any number.
    pub stock: i64,
    /// What a can costs, 0 to 1,000,000.
    pub price: i64,
    /// The tick at which it closes, 0 to 1,000,000,000; with 0 it never does.
    pub close_at: u64,
    /// What it took in; any number.
    pub coins: i64,
}

impl Model for Machine {
    ghost use Rattle.soda_model.specs.MachineFields.{IsMachine, MachineFields};

    ghost Value = { MachineFields };

    ghost view = { λ s. record { stock = s.stock; price = s.price; close_at = s.close_at; coins = s.coins } };

    ghost invariant = { λ s. IsMachine (record { stock = s.stock; price = s.price; close_at = s.close_at; coins = s.coins }) };

    ghost inverse = { λ s. record { stock = s.stock; price = s.price; close_at = s.close_at; coins = s.coins } };
}

impl Machine {
    ghost use Rattle.soda_model.specs.Machines.{fill, machine_samples, sells, sell};

    /// Whether so much money buys a can.
    fn sells(&self, money: i64) -> bool
        ensures { result ≡ sells self.now money }
    {
        self.stock > 0 && money >= self.price
    }

    /// Takes out a can, and takes in its price.
    fn sell(&mut self)
        ensures { self.new ≡ sell self.old }
    {
        self.stock = self.stock.saturating_sub(1);
        self.coins = self.coins.saturating_add(self.price);
    }

    /// Takes in so many cans, up to the ceiling; a number that isn't above 0 changes nothing.
    fn fill(&mut self, cans: i64)
        ensures { self.new ≡ fill self.old cans }
    {
        if cans > 0 {
            self.stock = self.stock.saturating_add(cans).min(CEILING);
        }
    }

    /// Its stock and its coins.
    fn samples(&self, alloc: Global) -> Result<Few<Sample, 2>, Memory>
        ensures { IfOk result (λ samples. samples ≡ machine_samples self.now) }
    {
        let stock = Sample {
            probe: 0,
            value: self.stock,
        };
        let coins = Sample {
            probe: 1,
            value: self.coins,
        };
        let mut samples = Few::new(alloc);
        samples.add(stock)?;
        samples.add(coins)?;
        Ok(samples)
    }
}

/// A machine at its inbox, with what it has sent so far.
#[derive(Drop)]
struct Trade {
    machine: Machine,
    sends: Few<Parcel, 1>,
}

impl Trade {
    ghost use Rattle.soda_model.specs.Machines.{buy};

    /// Sells a can and gives the change, or gives the money back and says why.
    fn buy(&mut self, customer: ActorId, money: i64) -> Result<(), Memory>
        ensures { OnOk result (self.new ≡ buy self.old customer money) }
    {
        if self.machine.sells(money) {
            let change = money.saturating_sub(self.machine.price);
            self.machine.sell();
            send(&mut self.sends, customer, CAN, change, 0)
        } else {
            let out = self.machine.stock == 0;
            let cause = if out { SOLD_OUT } else { TOO_LITTLE };
            send(&mut self.sends, customer, REFUND, money, cause)
        }
    }

    /// Sells, refuses or is filled; any other letter is ignored.
    fn serve(&mut self, letter: &Letter) -> Result<(), Memory>
        ensures { OnOk result (self.new ≡ serve self.old letter.now) }
    {
        match letter.payload.code {
            OFFER => self.buy(letter.from, letter.payload.a)?,
            FILL => self.machine.fill(letter.payload.a),
            _ => {}
        }
        Ok(())
    }
}

fn serve_all(trade: &mut Trade, inbox: &[Letter]) -> Result<(), Memory>
    ensures { OnOk result (trade.new ≡ fold serve trade.old inbox.now) }
{
    for letter in inbox {
        trade.serve(letter)?;
    }
    Ok(())
}

/// How many offers there are: a machine answers each with one letter, and nothing else.
fn offers(inbox: &[Letter]) -> usize
    ensures { result ≡ count_by (has_code 10) inbox.now }
{
    inbox
        .iter()
        .filter(|letter| letter.payload.code == OFFER)
        .count()
}

fn is_asked(inbox: &[Letter]) -> bool
    ensures { result ≡ list_any is_asked inbox.now }
{
    inbox.iter().any(|letter| letter.payload.code == OFFER || letter.payload.code == FILL)
}

impl Actor for Machine {
    ghost use Rattle.soda_model.specs.Machines.{machine_meaning};

    ghost meaning = { machine_meaning };

    fn act(
        &self,
        alloc: Global,
        _context: &Context,
        event: &Event<'_>,
    ) -> Result<Outcome<Self>, Memory> {
        let mut ticks = Few::new(alloc);
        if event.first && self.close_at != 0 {
            ticks.add(self.close_at)?;
        }
        let mut trade = Trade {
            machine: *self,
            sends: Few::with_room(alloc, offers(event.inbox))?,
        };
        serve_all(&mut trade, event.inbox)?;
        let Trade { machine, sends } = trade;
        let samples = if event.first || is_asked(event.inbox) {
            machine.samples(alloc)?
        } else {
            Few::new(alloc)
        };
        Ok(Outcome {
            state: machine,
            sends,
            ticks,
            births: Items::new(alloc),
            samples,
            retire: event.spontaneous,
            fault: None,
        })
    }

    fn kind(&self) -> &str {
        "machine"
    }

    fn probes(&self) -> u32 {
        2
    }

    fn probe(&self, n: u32) -> &str {
        if n == 0 { "stock" } else { "coins" }
    }

    fn copy(&self, _alloc: Global) -> Result<Self, Memory> {
        Ok(*self)
    }

    ghost lawful = { record { kind_is_word = λ _. refl; probes_are_words = λ _. refl; keeps_kind = λ _ _ _. refl; keeps_probes = λ _ _ _. refl } };
}
