ghost use Rattle.std.specs.Prelude.{◌≡◌, ◌≤◌, IfOk};
ghost use Rattle.std.specs.Char.{is_ascii_digit};
ghost use Rattle.std.specs.List.{list_all};
ghost use Rattle.sim_top.specs.Chosen.{nothing_chosen, plan_of, readers_of};
ghost use Rattle.sim_top.specs.Words.{choose, is_chosen, is_number, new_setting, number_at, number_of, policy_of, setting_of, takes};

use crate::forms::{Bounds, Options};
use crate::words::{WordsCause, WordsRefusal, refusal};
use placement::{Plan, Policy};
use std::marker::Model;

/// The most digits of a number.
const MOST_DIGITS: usize = 10;

const WORKERS: Bounds = Bounds {
    least: 1,
    greatest: 64,
};

const MANAGERS: Bounds = Bounds {
    least: 1,
    greatest: 16,
};

const FANOUT: Bounds = Bounds {
    least: 2,
    greatest: 8,
};

const READERS: Bounds = Bounds {
    least: 1,
    greatest: 8,
};

/// What an option sets.
#[derive(Clone, Copy)]
pub(crate) enum Setting {
    Workers,
    Managers,
    Fanout,
    Policy,
    Readers,
}

/// The options that stood so far, each in its range.
#[derive(Clone, Copy)]
pub(crate) struct Chosen {
    workers: Option<u32>,
    managers: Option<u32>,
    fanout: Option<u32>,
    policy: Option<Policy>,
    readers: Option<u32>,
}

impl Model for Chosen {
    ghost use Rattle.sim_top.specs.Chosen.{ChosenParts, IsChosen};

    ghost Value = { ChosenParts };

    ghost view = { λ c. record { workers = c.workers; managers = c.managers; fanout = c.fanout; policy = c.policy; readers = c.readers } };

    ghost invariant = { λ c. IsChosen (record { workers = c.workers; managers = c.managers; fanout = c.fanout; policy = c.policy; readers = c.readers }) };

    ghost inverse = { λ c. record { workers = c.workers; managers = c.managers; fanout = c.fanout; policy = c.policy; readers = c.readers } };
}

fn are_digits(word: &[u8]) -> bool
    ensures { result ≡ list_all is_ascii_digit word.now }
{
    word.iter().all(|byte| byte.is_ascii_digit())
}

fn is_number(word: &[u8]) -> bool
    ensures { result ≡ is_number word.now }
{
    1 <= word.len() && word.len() <= MOST_DIGITS && are_digits(word)
}

/// The number that 1 to 10 digits write.
#[tactic(auto, unfolding(crate::specs::Words::number_of))]
fn number_of(word: &[u8]) -> Option<u64>
    ensures { result ≡ number_of word.now }
{
    if !is_number(word) {
        return None;
    }
    match str::from_utf8(word) {
        Ok(text) => text.parse().ok(),
        Err(_) => unreachable!(),
    }
}

/// A number in its range.
#[tactic(auto, unfolding(crate::specs::Words::number_at))]
pub(crate) fn number_at(place: u64, bounds: Bounds, word: &[u8]) -> Result<u32, WordsRefusal>
    ensures value { result ≡ number_at place bounds word.now }
    ensures range { IfOk result (λ n. (bounds.least ≤ n) × (n ≤ bounds.greatest)) }
{
    let Some(value) = number_of(word) else {
        return Err(refusal(place, WordsCause::BadNumber));
    };
    if value < u64::from(bounds.least) || value > u64::from(bounds.greatest) {
        return Err(WordsRefusal {
            place,
            cause: WordsCause::OutOfRange,
            value,
        });
    }
    Ok(value as u32)
}

#[tactic(auto, unfolding(crate::specs::Words::policy_of))]
fn policy_of(word: &[u8]) -> Option<Policy>
    ensures { result ≡ policy_of word.now }
{
    if word == b"round".as_slice() {
        Some(Policy::RoundRobin)
    } else if word == b"name".as_slice() {
        Some(Policy::ByName)
    } else if word == b"load".as_slice() {
        Some(Policy::LeastLoaded)
    } else {
        None
    }
}

#[tactic(auto, unfolding(crate::specs::Words::setting_of))]
fn setting_of(word: &[u8]) -> Option<Setting>
    ensures { result ≡ setting_of word.now }
{
    if word == b"--workers".as_slice() {
        Some(Setting::Workers)
    } else if word == b"--managers".as_slice() {
        Some(Setting::Managers)
    } else if word == b"--fanout".as_slice() {
        Some(Setting::Fanout)
    } else if word == b"--policy".as_slice() {
        Some(Setting::Policy)
    } else if word == b"--readers".as_slice() {
        Some(Setting::Readers)
    } else {
        None
    }
}

impl Options {
    fn takes(self, setting: Setting) -> bool
        ensures { result ≡ takes self setting }
    {
        match (self, setting) {
            (Options::Nothing, _) | (Options::OfPlan, Setting::Readers) => false,
            (Options::OfPlan | Options::OfPlanAndReaders, _) => true,
        }
    }
}

/// The option that a word is, if the command takes it and it didn't stand before.
#[tactic(auto, unfolding(crate::specs::Words::new_setting))]
pub(crate) fn new_setting(
    options: Options,
    place: u64,
    word: &[u8],
    chosen: &Chosen,
) -> Result<Setting, WordsRefusal>
    ensures { result ≡ new_setting options place word.now chosen.now }
{
    let Some(setting) = setting_of(word) else {
        return Err(refusal(place, WordsCause::UnknownOption));
    };
    if !options.takes(setting) {
        return Err(refusal(place, WordsCause::UnknownOption));
    }
    if chosen.has(setting) {
        return Err(refusal(place, WordsCause::Repeated));
    }
    Ok(setting)
}

impl Chosen {
    pub(crate) fn nothing() -> Chosen
        ensures { result ≡ nothing_chosen }
    {
        Chosen {
            workers: None,
            managers: None,
            fanout: None,
            policy: None,
            readers: None,
        }
    }

    fn has(&self, setting: Setting) -> bool
        ensures { result ≡ is_chosen setting self.now }
    {
        match setting {
            Setting::Workers => self.workers.is_some(),
            Setting::Managers => self.managers.is_some(),
            Setting::Fanout => self.fanout.is_some(),
            Setting::Policy => self.policy.is_some(),
            Setting::Readers => self.readers.is_some(),
        }
    }

    /// These and one option more, whose value is this word at this place.
    #[tactic(auto, unfolding(crate::specs::Words::choose))]
    pub(crate) fn with(
        self,
        setting: Setting,
        place: u64,
        word: &[u8],
    ) -> Result<Chosen, WordsRefusal>
        ensures { result ≡ choose setting place word.now self }
    {
        Ok(match setting {
            Setting::Workers => Chosen {
                workers: Some(number_at(place, WORKERS, word)?),
                ..self
            },
            Setting::Managers => Chosen {
                managers: Some(number_at(place, MANAGERS, word)?),
                ..self
            },
            Setting::Fanout => Chosen {
                fanout: Some(number_at(place, FANOUT, word)?),
                ..self
            },
            Setting::Policy => {
                let Some(policy) = policy_of(word) else {
                    return Err(refusal(place, WordsCause::UnknownPolicy));
                };
                Chosen {
                    policy: Some(policy),
                    ..self
                }
            }
            Setting::Readers => Chosen {
                readers: Some(number_at(place, READERS, word)?),
                ..self
            },
        })
    }

    /// The plan: what isn't chosen has its default.
    pub(crate) fn plan(&self) -> Plan
        ensures { result ≡ plan_of self.now }
    {
        Plan {
            workers: self.workers.unwrap_or(1),
            managers: self.managers.unwrap_or(1),
            fanout: self.fanout.unwrap_or(2),
            policy: self.policy.unwrap_or(Policy::RoundRobin),
        }
    }

    /// How many readers look on: 2 where it isn't chosen.
    pub(crate) fn readers(&self) -> u32
        ensures { result ≡ readers_of self.now }
    {
        self.readers.unwrap_or(2)
    }
}
