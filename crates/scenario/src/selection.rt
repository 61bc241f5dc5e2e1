//! The rules of the field `results`.
ghost use Rattle.std.specs.Prelude.{◌≡◌, ◌≤◌, length, map, IfOk};
ghost use Rattle.serde_json.specs.View.{view};
ghost use Rattle.scenario.specs.Answers.{Gives};
ghost use Rattle.scenario.specs.Selection.{results_of, rules_in};

use crate::fields::texts_or;
use crate::{Refusal, ScenarioFault};
use result_store::{Rules, RulesFault};
use serde_json::Value;
use sim_base::Items;
use std::alloc::{AllocError, Global};

/// The most rules of a scenario.
const MOST_RULES: usize = 256;

/// The rule that keeps all.
const ALL: &str = "+*";

/// The texts, each in a list of its own.
fn copy_all(alloc: Global, texts: &[&str]) -> Result<Items<Items<u8>>, AllocError>
    ensures { IfOk result (λ copies. copies ≡ map (λ t. t.now) texts.now) }
{
    let mut copies = Vec::with_capacity(alloc, texts.len())?;
    for text in texts {
        copies.push(Items::of(text.as_bytes().to_vec(alloc)?))?;
    }
    Ok(Items::of(copies))
}

/// The texts of the rules; where none are given, the one that keeps all.
pub(crate) fn results_of(alloc: Global, tree: &Value) -> Result<Items<Items<u8>>, ScenarioFault>
    ensures value { Gives result (results_of (view tree.now)) }
    ensures few { IfOk result (λ texts. length texts ≤ 256) }
{
    let default = vec![in alloc; ALL]?;
    let texts = texts_or(alloc, tree, "results", default, MOST_RULES)?;
    Ok(copy_all(alloc, &texts)?)
}

/// The rules that the texts are.
pub(crate) fn rules_in(alloc: Global, texts: &[Items<u8>]) -> Result<Rules, ScenarioFault>
    requires { length texts.now ≤ 256 }
    ensures { Gives result (rules_in texts.now) }
{
    match Rules::read(alloc, texts) {
        Ok(rules) => Ok(rules),
        Err(RulesFault::BadRule(number)) => {
            Err(ScenarioFault::Refused(Refusal::BadRule(number)))
        }
        Err(RulesFault::Memory) => Err(ScenarioFault::Memory),
    }
}
