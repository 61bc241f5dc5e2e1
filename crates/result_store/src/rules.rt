ghost use Rattle.std.specs.Prelude.{◌≡◌, ◌≤◌, length, option_map};
ghost use Rattle.std.specs.List.{list_all};
ghost use Rattle.result_store.specs.Patterns.{series_name};
ghost use Rattle.result_store.specs.Rules.{Gives, is_pattern, is_pattern_byte, keeps, rule_of, rules_of, sign_of};

use crate::pattern::{SeriesName, matches};
use sim_base::{Items, Name};
use std::alloc::{AllocError, AllocFailed, Global};
use std::marker::Model;
use thiserror::Error;

/// The most bytes of a pattern.
const MOST: usize = 64;

/// Why texts give no rules.
#[derive(Debug, Drop, Error)]
pub enum RulesFault {
    /// The text with this number, counted from 1, is the first that is no rule.
    #[error("rule {0} is no rule")]
    BadRule(u32),
    /// A growth was refused; nothing is known of the texts.
    #[error("no memory")]
    Memory,
}

impl From<AllocError> for RulesFault {
    ghost use Rattle.std.specs.Prelude.{◌≡◌};
    ghost use Rattle.result_store.specs.declared.rules.RulesFault.TheVariants as fault;

    ghost from_gives = { λ _ e. e ≡ fault.Memory };

    fn from(_: AllocError) -> RulesFault {
        RulesFault::Memory
    }
}

impl<T: Drop> From<AllocFailed<T>> for RulesFault {
    ghost use Rattle.std.specs.Prelude.{◌≡◌};
    ghost use Rattle.result_store.specs.declared.rules.RulesFault.TheVariants as fault;

    ghost from_gives = { λ _ e. e ≡ fault.Memory };

    fn from(_: AllocFailed<T>) -> RulesFault {
        RulesFault::Memory
    }
}

/// A rule that was read: whether it keeps, and its pattern.
#[derive(Drop)]
pub(crate) struct Rule {
    keeps: bool,
    pattern: Items<u8>,
}

/// Rules that select series, in their order: of those whose pattern matches, the last decides.
#[derive(Drop)]
pub struct Rules {
    rules: Items<Rule>,
}

impl Model for Rule {
    ghost use Rattle.result_store.specs.RuleParts.{RuleParts};

    ghost Value = { RuleParts };

    ghost view = { λ r. record { keeps = r.keeps; pattern = r.pattern } };
}

impl Model for Rules {
    ghost use Rattle.std.specs.Prelude.{List};
    ghost use Rattle.result_store.specs.RuleParts.{RuleParts};

    ghost Value = { List RuleParts };

    ghost view = { λ r. r.rules };
}

fn is_pattern_byte(byte: u8) -> bool
    ensures { result ≡ is_pattern_byte byte }
{
    matches!(byte, b'a'..=b'z' | b'0'..=b'9' | b'_' | b'-' | b'.' | b'*')
}

fn are_in_pattern(bytes: &[u8]) -> bool
    ensures { result ≡ list_all is_pattern_byte bytes.now }
{
    bytes.iter().all(|byte| is_pattern_byte(*byte))
}

fn is_pattern(bytes: &[u8]) -> bool
    ensures { result ≡ is_pattern bytes.now }
{
    1 <= bytes.len() && bytes.len() <= MOST && are_in_pattern(bytes)
}

/// Whether a rule with this first byte keeps.
fn read_sign(byte: u8) -> Option<bool>
    ensures { result ≡ sign_of byte }
{
    match byte {
        b'+' => Some(true),
        b'-' => Some(false),
        _ => None,
    }
}

/// A text's sign and pattern, if it is a rule.
fn split_rule(text: &[u8]) -> Option<(bool, &[u8])>
    ensures { option_map (λ p. record { keeps = p.0; pattern = p.1.now }) result ≡ rule_of text.now }
{
    match text {
        [] => None,
        [sign, pattern @ ..] => {
            if !is_pattern(pattern) {
                return None;
            }
            let keeps = read_sign(*sign)?;
            Some((keeps, pattern))
        }
    }
}

impl Rules {
    /// The rules that the texts are, in order; there are at most 256. A rule is a `+` or a `-` and
    /// then a pattern, which has 1 to 64 of `a` to `z`, `0` to `9`, `_`, `-`, `.` and `*`. `BadRule`
    /// names the first text that is no rule; want of memory tells nothing of the texts.
    pub fn read(alloc: Global, texts: &[Items<u8>]) -> Result<Rules, RulesFault>
        requires { length texts.now ≤ 256 }
        ensures { Gives result (rules_of texts.now) }
    {
        let mut rules = Vec::with_capacity(alloc, texts.len())?;
        let mut number = 1;
        for text in texts {
            let Some((keeps, pattern)) = split_rule(text.as_slice()) else {
                return Err(RulesFault::BadRule(number));
            };
            let pattern = Items::of(pattern.to_vec(alloc)?);
            rules.push(Rule { keeps, pattern })?;
            number += 1;
        }
        Ok(Rules {
            rules: Items::of(rules),
        })
    }

    /// Whether the series of this actor and this probe is kept: the last rule whose pattern matches
    /// `<actor>.<probe>` decides, and where none does it isn't. A `*` matches any part of that text,
    /// also the empty one, and each other byte of a pattern matches itself.
    pub fn keeps(&self, actor: &Name, probe: &str) -> bool
        ensures { result ≡ keeps self.now (series_name actor.now probe.now) }
    {
        self.keeps_series(&SeriesName {
            actor: actor.as_bytes(),
            probe: probe.as_bytes(),
        })
    }

    pub(crate) fn keeps_series(&self, series: &SeriesName<'_>) -> bool
        ensures { result ≡ keeps self.now series.now }
    {
        let rules = self.rules.as_slice();
        let last = rules
            .iter()
            .rev()
            .find(|rule| matches(rule.pattern.as_slice(), series));
        match last {
            Some(rule) => rule.keeps,
            None => false,
        }
    }
}
