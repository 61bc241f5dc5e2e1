ghost use Rattle.std.specs.Prelude.{◌≡◌, ◌≤◌, codes, length, IfOk, Ok};
ghost use Rattle.serde_json.specs.Find.{get};
ghost use Rattle.serde_json.specs.View.{view, items_view};
ghost use Rattle.scenario.specs.Answers.{Gives, ok_map};
ghost use Rattle.scenario.specs.Format.{is_object, items_in, limits_of, most_actors, scenario_in, scenario_of};
ghost use Rattle.scenario.specs.Print.{canonical_text};
ghost use Rattle.scenario.specs.AnyActors.{any_meaning};
ghost use Rattle.scenario.specs.Upgraded.{upgraded};
ghost use Rattle.sim_model.specs.Run.{run_of};

use crate::actors::{check_all, finish_all};
use crate::fields::{Owner, no_unknown, number_at, number_or, place};
use crate::printing::tree_value;
use crate::reading::{Pass, look_all};
use crate::selection::{results_of, rules_in};
use crate::table::MOST;
use crate::urgent::{ascending, urgent_texts};
use crate::{AnyActor, Refusal, ScenarioFault};
use result_store::Rules;
use serde_json::Value;
use sim_base::{Items, Memory};
use sim_model::Setup;
use std::alloc::Global;
use std::marker::Model;

/// The format that has urgent senders and more room.
const SECOND_FORMAT: u32 = 2;

/// The bytes of a rule.
pub type RuleText = Items<u8>;

/// A scenario: what is run, and which series are written. It is always one that a text gives: fields
/// in their ranges, actors at their start, with different names, that name actors of the scenario,
/// and rules that are those of the texts.
#[derive(Drop)]
pub struct Scenario {
    /// The number of its format: 1 or 2.
    pub format: u32,
    /// What is run. In format 1 it has room for at most 200,000 actors and no urgent sender, in
    /// format 2 for 1,000,000 and at most 64 of them.
    pub setup: Setup<AnyActor>,
    /// Which series are written: the rules of the texts.
    pub rules: Rules,
    /// The texts of the rules, in their order, at most 256.
    pub texts: Items<RuleText>,
}

impl Model for Scenario {
    ghost use Rattle.scenario.specs.ScenarioParts.{ScenarioParts};

    ghost Value = { ScenarioParts };

    ghost use Rattle.scenario.specs.Valid.{IsScenario};

    ghost view = { λ s. record { format = s.format; setup = s.setup; rules = s.rules; texts = s.texts } };

    ghost invariant = { λ s. IsScenario (record { format = s.format; setup = s.setup; rules = s.rules; texts = s.texts }) };
}

/// The numbers of the whole.
#[derive(Clone, Copy)]
pub(crate) struct Limits {
    pub(crate) format: u32,
    pub(crate) seed: u64,
    pub(crate) last_tick: u64,
    pub(crate) diasca_limit: u32,
    pub(crate) max_actors: u32,
}

fn object(tree: &Value) -> Result<(), Refusal>
    ensures { result ≡ is_object (view tree.now) }
{
    if tree.is_object() {
        Ok(())
    } else {
        Err(Refusal::WrongType(place(0, "scenario")))
    }
}

/// The most that the field `max_actors` may be.
fn most_actors(format: u64) -> u64
    ensures value { result ≡ most_actors format }
    ensures least { 10000 ≤ result }
    ensures most { result ≤ 1000000 }
{
    if format == 1 { 200_000 } else { 1_000_000 }
}

#[tactic(auto, unfolding(crate::specs::Format::limits_of))]
fn read_limits(tree: &Value) -> Result<Limits, Refusal>
    ensures value { result ≡ limits_of (view tree.now) }
    ensures range { IfOk result (λ limits. limits.max_actors ≤ 1000000) }
{
    let format = number_at(tree, 0, "format", 1, 2)?;
    let seed = number_or(tree, "seed", 0, 0, u64::MAX)?;
    let last_tick = number_at(tree, 0, "last_tick", 0, MOST)?;
    let diasca_limit = number_or(tree, "diasca_limit", 1000, 1, 65_535)?;
    let max_actors = number_or(tree, "max_actors", 10_000, 1, most_actors(format))?;
    Ok(Limits {
        format: format as u32,
        seed,
        last_tick,
        diasca_limit: diasca_limit as u32,
        max_actors: max_actors as u32,
    })
}

/// The values of the actors, at most so many.
#[tactic(auto, unfolding(crate::specs::Format::items_in))]
fn actor_values(tree: &Value, max_actors: u32) -> Result<&Vec<Value>, Refusal>
    ensures value { ok_map (λ v. items_view v.now.items) result ≡ items_in max_actors (get (codes "actors") (view tree.now)) }
    ensures few { IfOk result (λ v. length v.now.items ≤ max_actors) }
{
    let Some(value) = tree.get("actors") else {
        return Err(Refusal::Missing(place(0, "actors")));
    };
    let Some(values) = value.as_array() else {
        return Err(Refusal::WrongType(place(0, "actors")));
    };
    if values.len() > max_actors as usize {
        return Err(Refusal::TooManyActors(values.len() as u64));
    }
    Ok(values)
}

impl Scenario {
    /// The scenario of a text. `Refused` has the first check that fails, in the order of the format;
    /// want of memory tells nothing of the text. The number of bytes isn't limited here.
    pub fn read(alloc: Global, bytes: &[u8]) -> Result<Scenario, ScenarioFault>
        ensures { Gives result (scenario_of bytes.now) }
    {
        match Value::from_slice(alloc, bytes) {
            Ok(tree) => Scenario::read_tree(alloc, &tree),
            Err(fault) => {
                if fault.is_memory() {
                    return Err(ScenarioFault::Memory);
                }
                Err(ScenarioFault::Refused(Refusal::NotJson))
            }
        }
    }

    /// The scenario of a tree: the checks of the format from the second on, where the first is that the
    /// bytes are a JSON text. `Refused` has the first of them that fails; want of memory tells nothing
    /// of the tree.
    #[tactic(auto, unfolding(crate::specs::Format::scenario_in))]
    pub fn read_tree(alloc: Global, tree: &Value) -> Result<Scenario, ScenarioFault>
        ensures { Gives result (scenario_in (view tree.now)) }
    {
        object(tree)?;
        no_unknown(Owner::Whole, 0, tree)?;
        let limits = read_limits(tree)?;
        let names_of_urgent = urgent_texts(alloc, limits.format, tree)?;
        let texts = results_of(alloc, tree)?;
        let rules = rules_in(alloc, texts.as_slice())?;
        let values = actor_values(tree, limits.max_actors)?;
        let names = check_all(alloc, values)?;
        let actors = finish_all(alloc, &names, values)?;
        let senders = look_all(alloc, Pass::Finish, &names, 0, "urgent", &names_of_urgent)?;
        let urgent = ascending(alloc, senders)?;
        Ok(Scenario {
            format: limits.format,
            setup: Setup {
                seed: limits.seed,
                last_tick: limits.last_tick,
                diasca_limit: limits.diasca_limit,
                max_actors: limits.max_actors,
                actors,
                urgent,
            },
            rules,
            texts,
        })
    }

    /// The canonical text: one JSON object with all fields of its format and no blanks, the keys in
    /// byte order, actors named by their names. It is read to an equal scenario. Err is want of memory.
    pub fn print(&self, alloc: Global) -> Result<Items<u8>, Memory>
        ensures text { IfOk result (λ t. t ≡ canonical_text self.now) }
        ensures read_again { IfOk result (λ t. scenario_of t ≡ Ok self.now) }
    {
        let tree = tree_value(alloc, self)?;
        let text = tree.to_string(alloc)?;
        Ok(Items::of(text.as_str().as_bytes().to_vec(alloc)?))
    }

    /// The same scenario in format 2. It takes no memory.
    pub fn upgrade(self) -> Scenario
        ensures upgraded { result ≡ upgraded self }
        ensures twice { upgraded result ≡ result }
        ensures same_run { run_of any_meaning result.setup ≡ run_of any_meaning self.setup }
        ensures same_rules { result.rules ≡ self.rules }
    {
        let Scenario {
            format: _,
            setup,
            rules,
            texts,
        } = self;
        Scenario {
            format: SECOND_FORMAT,
            setup,
            rules,
            texts,
        }
    }
}
