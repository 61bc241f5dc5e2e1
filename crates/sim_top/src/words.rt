ghost use Rattle.std.specs.Prelude.{◌≡◌, ◌≤◌, IfOk};
ghost use Rattle.sim_top.specs.Chosen.{nothing_chosen};
ghost use Rattle.sim_top.specs.Words.{IsOffered, IsSound, IsWithin, options_from, order_behind, order_of, order_with, refusal};

use crate::forms::{Form, Options, command_of, served};
use crate::options::{Chosen, new_setting, number_at};
use placement::Plan;
use sim_base::Items;

/// What the words command.
#[derive(Clone, Copy, Debug, PartialEq, Eq)]
pub enum Command {
    /// Read a scenario, run it, and write the text of the run.
    Run,
    /// Read a scenario, and write its canonical text.
    Check,
    /// Read a scenario, and write where each initial actor is placed, and the tree of the managers.
    Plan,
    /// Run a generated scenario of so many groups, 1 to 10,000, and write a summary of its text.
    Gen(u32),
    /// Read a scenario, and write its canonical text in format 2.
    Upgrade,
    /// Read a scenario, run it while readers look on, and write the text of the run.
    Live,
    /// Write a page of usage.
    Help,
    /// Write the name and the version.
    Version,
}

/// What command words ask for.
#[derive(Clone, Copy, Debug, PartialEq, Eq)]
pub struct Order {
    /// What is done.
    pub command: Command,
    /// How the run is spread. An option that isn't given, or that the command doesn't take, has its
    /// default: one worker, one manager, a fan-out of 2, round robin.
    pub plan: Plan,
    /// How many readers look on, 1 to 8: 2 where the option isn't given or taken.
    pub readers: u32,
}

/// Why command words are refused. For one word the causes are tried in this order.
#[derive(Clone, Copy, Debug, PartialEq, Eq)]
pub enum WordsCause {
    /// There is no word.
    NoCommand,
    /// The first word is no command that the call serves.
    UnknownCommand,
    /// A word where an option may stand is none of the command's.
    UnknownOption,
    /// The option stood before.
    Repeated,
    /// The words end before the number of a command or the value of an option.
    NoValue,
    /// The value isn't 1 to 10 digits.
    BadNumber,
    /// The value is a number outside its range.
    OutOfRange,
    /// The value is no policy.
    UnknownPolicy,
}

/// A refusal of command words: the first word that fails decides.
#[derive(Clone, Copy, Debug, PartialEq, Eq)]
pub struct WordsRefusal {
    /// The place of the word, from 0: of the command or the option where its value is missing, else of
    /// the word that fails.
    pub place: u64,
    /// Why it is refused.
    pub cause: WordsCause,
    /// The number that is out of range, else 0.
    pub value: u64,
}

pub(crate) fn refusal(place: u64, cause: WordsCause) -> WordsRefusal
    ensures { result ≡ refusal place cause }
{
    WordsRefusal {
        place,
        cause,
        value: 0,
    }
}

/// The options that these words give, of which the first has this place.
fn read_options(options: Options, first: u64, words: &[Items<u8>]) -> Result<Chosen, WordsRefusal>
    requires { first ≤ 2 }
    ensures { result ≡ options_from options first nothing_chosen words.now }
{
    let mut chosen = Chosen::nothing();
    let mut at = 0;
    'pairs: while at < words.len() {
        let place = at as u64 + first;
        let setting = new_setting(options, place, words[at].as_slice(), &chosen)?;
        let Some(value) = words.get(at + 1) else {
            return Err(refusal(place, WordsCause::NoValue));
        };
        chosen = chosen.with(setting, place + 1, value.as_slice())?;
        at += 2;
    }
    Ok(chosen)
}

/// A command with its number, and the options behind them.
#[tactic(auto, unfolding(crate::specs::Words::order_with))]
fn order_with(
    form: Form,
    number: u32,
    place: u64,
    words: &[Items<u8>],
) -> Result<Order, WordsRefusal>
    requires place { place ≤ 2 }
    requires sound { IsSound form }
    requires within { IsWithin form.number number }
    ensures value { result ≡ order_with form number place words.now }
    ensures offered { IfOk result (λ order. IsOffered order.command) }
{
    let chosen = read_options(form.options, place, words)?;
    Ok(Order {
        command: command_of(form.verb, number),
        plan: chosen.plan(),
        readers: chosen.readers(),
    })
}

/// A command with what follows it.
#[tactic(auto, unfolding(crate::specs::Words::order_behind))]
fn order_behind(form: Form, words: &[Items<u8>]) -> Result<Order, WordsRefusal>
    requires { IsSound form }
    ensures value { result ≡ order_behind form form.number words.now }
    ensures offered { IfOk result (λ order. IsOffered order.command) }
{
    let Some(bounds) = form.number else {
        return order_with(form, 0, 1, words);
    };
    let [number, options @ ..] = words else {
        return Err(refusal(0, WordsCause::NoValue));
    };
    let number = number_at(1, bounds, number.as_slice())?;
    order_with(form, number, 2, options)
}

/// What these words ask for. The first is a command: `live` where the parameter says that the call is
/// the one that may wait, else any other. A command that takes a number has it next. Options follow, each
/// at most once and with its value behind it, in any order: `--workers` 1 to 64, `--managers` 1 to 16,
/// `--fanout` 2 to 8, `--policy` with `round`, `name` or `load`, and for `live` `--readers` 1 to 8.
/// Words are compared as bytes. It takes no memory.
#[tactic(auto, unfolding(crate::specs::Words::order_of))]
pub fn read_words(words: &[Items<u8>], live: bool) -> Result<Order, WordsRefusal>
    ensures value { result ≡ order_of live words.now }
    ensures offered { IfOk result (λ order. IsOffered order.command) }
{
    let [command, rest @ ..] = words else {
        return Err(refusal(0, WordsCause::NoCommand));
    };
    match served(live, command.as_slice()) {
        Some(form) => order_behind(form, rest),
        None => Err(refusal(0, WordsCause::UnknownCommand)),
    }
}
