ghost use Rattle.std.specs.Prelude.{◌≡◌, None, Some, IfSome};
ghost use Rattle.sim_top.specs.Words.{IsSound, bounds, command_of, form_of, row, served};

use crate::words::Command;

/// The range of a number.
#[derive(Clone, Copy)]
pub(crate) struct Bounds {
    /// The least number.
    pub(crate) least: u32,
    /// The greatest number.
    pub(crate) greatest: u32,
}

/// How many groups a generated scenario has.
const GROUPS: Bounds = Bounds {
    least: 1,
    greatest: 10_000,
};

/// Which options a command takes.
#[derive(Clone, Copy)]
pub(crate) enum Options {
    /// None.
    Nothing,
    /// Those of a plan.
    OfPlan,
    /// Those of a plan, and how many readers there are.
    OfPlanAndReaders,
}

/// A command without the number that may stand behind it.
#[derive(Clone, Copy)]
pub(crate) enum Verb {
    Run,
    Check,
    Plan,
    Gen,
    Upgrade,
    Live,
    Help,
    Version,
}

/// A row of the table of commands.
#[derive(Clone, Copy)]
pub(crate) struct Form {
    /// What is done.
    pub(crate) verb: Verb,
    /// Whether it is a command of the call that may wait; else it is one of the other.
    pub(crate) live: bool,
    /// The range of the number behind the command, where there is one.
    pub(crate) number: Option<Bounds>,
    /// The options that follow.
    pub(crate) options: Options,
}

fn row(verb: Verb, live: bool, number: Option<Bounds>, options: Options) -> Form
    ensures { result ≡ row verb live number options }
{
    Form {
        verb,
        live,
        number,
        options,
    }
}

/// The row of a word, if it is a command.
#[tactic(auto, unfolding(crate::specs::Words::form_of))]
fn form_of(word: &[u8]) -> Option<Form>
    ensures value { result ≡ form_of word.now }
    ensures sound { IfSome result IsSound }
{
    if word == b"run".as_slice() {
        Some(row(Verb::Run, false, None, Options::OfPlan))
    } else if word == b"check".as_slice() {
        Some(row(Verb::Check, false, None, Options::Nothing))
    } else if word == b"plan".as_slice() {
        Some(row(Verb::Plan, false, None, Options::OfPlan))
    } else if word == b"gen".as_slice() {
        Some(row(Verb::Gen, false, Some(GROUPS), Options::OfPlan))
    } else if word == b"upgrade".as_slice() {
        Some(row(Verb::Upgrade, false, None, Options::Nothing))
    } else if word == b"live".as_slice() {
        Some(row(Verb::Live, true, None, Options::OfPlanAndReaders))
    } else if word == b"--help".as_slice() {
        Some(row(Verb::Help, false, None, Options::Nothing))
    } else if word == b"--version".as_slice() {
        Some(row(Verb::Version, false, None, Options::Nothing))
    } else {
        None
    }
}

/// The row of a word, if it is a command that the call serves: `live` for the one that may wait.
pub(crate) fn served(live: bool, word: &[u8]) -> Option<Form>
    ensures value { result ≡ served live (form_of word.now) }
    ensures sound { IfSome result IsSound }
{
    let form = form_of(word)?;
    if form.live == live { Some(form) } else { None }
}

/// A command with the number behind it.
pub(crate) fn command_of(verb: Verb, number: u32) -> Command
    ensures { result ≡ command_of verb number }
{
    match verb {
        Verb::Run => Command::Run,
        Verb::Check => Command::Check,
        Verb::Plan => Command::Plan,
        Verb::Gen => Command::Gen(number),
        Verb::Upgrade => Command::Upgrade,
        Verb::Live => Command::Live,
        Verb::Help => Command::Help,
        Verb::Version => Command::Version,
    }
}
