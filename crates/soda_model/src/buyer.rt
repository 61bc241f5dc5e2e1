//! What every customer does, however long it waits.

ghost use Rattle.std.specs.Prelude.{◌≡◌, ℕ, [], ◌∷◌, if◌then◌else◌, IfOk};
ghost use Rattle.std.specs.List.{fold, list_any};
ghost use Rattle.actor_trait.specs.Seen.{seen};
ghost use Rattle.actor_trait.specs.declared.context.Context.{Context};
ghost use Rattle.soda_model.specs.Buyers.{answer, ask, buyer_acts, buyer_samples, buys, is_answer, pay};
ghost use Rattle.soda_model.specs.Letters.{offer_to};

use crate::letters::{CAN, OFFER, REFUND, send};
use actor_trait::{Context, Event, Letter, Outcome, Parcel, Sample};
use sim_base::{ActorId, Few, Items, Memory};
use std::alloc::Global;

/// How long a customer waits until it buys again.
pub(crate) trait Waiting {
    /// What the wait is.
    ghost wait_of: { Self → Context → ℕ };

    /// The wait at an event, in ticks.
    fn wait(&self, context: &Context) -> u64
        ensures { result ≡ wait_of self.now context.entry.now };
}

/// A customer without its wait.
#[derive(Clone, Copy)]
pub(crate) struct Buyer {
    pub(crate) machine: ActorId,
    pub(crate) offer: i64,
    pub(crate) money: i64,
    pub(crate) cans: i64,
}

impl Buyer {
    fn buys(&self, event: &Event<'_>) -> bool
        ensures { result ≡ buys self.now (seen event.now.first event.now.spontaneous event.now.inbox.now) }
    {
        event.spontaneous && self.money >= self.offer
    }

    /// Its offer to its machine, if it buys.
    fn offers(&self, alloc: Global, buys: bool) -> Result<Few<Parcel, 1>, Memory>
        ensures { IfOk result (λ sends. sends ≡ (if buys then offer_to self.now.machine self.now.offer ∷ [] else [])) }
    {
        let mut sends = Few::new(alloc);
        if buys {
            send(&mut sends, self.machine, OFFER, self.offer, 0)?;
        }
        Ok(sends)
    }

    /// What is left of its money, if it buys.
    fn after_offer(self, buys: bool) -> Buyer
        ensures { result ≡ (if buys then pay self else self) }
    {
        if buys {
            Buyer {
                money: self.money.saturating_sub(self.offer),
                ..self
            }
        } else {
            self
        }
    }

    /// Takes in a can with its change, or a refund; any other letter is ignored.
    fn answer(&mut self, letter: &Letter)
        ensures { self.new ≡ answer self.old letter.now }
    {
        if !is_answer(self.machine, letter) {
            return;
        }
        if letter.payload.code == CAN {
            self.cans = self.cans.saturating_add(1);
        }
        self.money = self.money.saturating_add(letter.payload.a);
    }

    /// Its cans and its money.
    fn samples(&self, alloc: Global) -> Result<Few<Sample, 2>, Memory>
        ensures { IfOk result (λ samples. samples ≡ buyer_samples self.now) }
    {
        let cans = Sample {
            probe: 0,
            value: self.cans,
        };
        let money = Sample {
            probe: 1,
            value: self.money,
        };
        let mut samples = Few::new(alloc);
        samples.add(cans)?;
        samples.add(money)?;
        Ok(samples)
    }
}

/// Whether a letter is a can or a refund from this machine.
fn is_answer(machine: ActorId, letter: &Letter) -> bool
    ensures { result ≡ is_answer machine letter.now }
{
    let code = letter.payload.code;
    letter.from.0 == machine.0 && (code == CAN || code == REFUND)
}

fn any_answer(machine: ActorId, inbox: &[Letter]) -> bool
    ensures { result ≡ list_any (is_answer machine) inbox.now }
{
    inbox.iter().any(|letter| is_answer(machine, letter))
}

fn answer_all(buyer: Buyer, inbox: &[Letter]) -> Buyer
    ensures { result ≡ fold answer buyer inbox.now }
{
    let mut buyer = buyer;
    for letter in inbox {
        buyer.answer(letter);
    }
    buyer
}

/// Asks the tick after the wait, once for each of the two causes.
fn ask<W: Waiting>(
    alloc: Global,
    waiting: &W,
    context: &Context,
    first: bool,
    buys: bool,
) -> Result<Few<u64, 1>, Memory>
    ensures { IfOk result (λ ticks. ticks ≡ ask context.entry.now (W.wait_of waiting.now context.entry.now) first buys) }
{
    let mut ticks = Few::with_room(alloc, usize::from(first) + usize::from(buys))?;
    if first || buys {
        let next = context.now.tick.saturating_add(waiting.wait(context));
        if first {
            ticks.add(next)?;
        }
        if buys {
            ticks.add(next)?;
        }
    }
    Ok(ticks)
}

/// What comes of an event of a customer that waits in this way.
pub(crate) fn shop<W: Waiting>(
    alloc: Global,
    buyer: Buyer,
    waiting: &W,
    context: &Context,
    event: &Event<'_>,
) -> Result<Outcome<Buyer>, Memory>
    ensures { IfOk result (λ outcome. outcome ≡ buyer_acts buyer (W.wait_of waiting.now context.entry.now) context.entry.now (seen event.now.first event.now.spontaneous event.now.inbox.now)) }
{
    let buys = buyer.buys(event);
    let ticks = ask(alloc, waiting, context, event.first, buys)?;
    let sends = buyer.offers(alloc, buys)?;
    let after = answer_all(buyer.after_offer(buys), event.inbox);
    let samples = if any_answer(buyer.machine, event.inbox) {
        after.samples(alloc)?
    } else {
        Few::new(alloc)
    };
    Ok(Outcome {
        state: after,
        sends,
        ticks,
        births: Items::new(alloc),
        samples,
        retire: false,
        fault: None,
    })
}
