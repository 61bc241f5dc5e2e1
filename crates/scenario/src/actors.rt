//! The actors of a scenario: first the checks of each in order, then the finished actors.
ghost use Rattle.std.specs.Prelude.{◌≡◌, ◌-◌, ◌<◌, ◌^◌, [], length, IfOk, None};
ghost use Rattle.serde_json.specs.View.{view, items_view};
ghost use Rattle.scenario.specs.Actors.{actor_of, check_of, kind_of, name_of, names_of, starts_of};
ghost use Rattle.scenario.specs.Answers.{Gives, ok_map};
ghost use Rattle.scenario.specs.Names.{place_in};

use crate::contents::build;
use crate::fields::{Owner, no_unknown, place, text_at};
use crate::names::Names;
use crate::reading::{Pass, contents_at};
use crate::table::{Kind, fields_of, kind_named};
use crate::{AnyActor, Refusal, ScenarioFault};
use serde_json::Value;
use sim_base::{Items, Name};
use sim_model::Start;
use std::alloc::Global;

/// The name of an actor, which is none of the earlier ones, and its text.
#[tactic(auto, unfolding(crate::specs::Actors::name_of))]
fn name_of<'v>(earlier: &Names<'_>, id: u32, value: &'v Value) -> Result<(&'v str, Name), Refusal>
    ensures value { ok_map (λ p. p.1) result ≡ name_of earlier.now id (view value.now) }
    ensures text { IfOk result (λ p. p.0.now ≡ p.1) }
    ensures new { IfOk result (λ p. place_in earlier.now p.1 ≡ None) }
{
    let text = text_at(value, id, "name")?;
    let Some(name) = Name::read(text.as_bytes()) else {
        return Err(Refusal::BadName(id));
    };
    if earlier.find(text).is_some() {
        return Err(Refusal::Twice(name));
    }
    Ok((text, name))
}

#[tactic(auto, unfolding(crate::specs::Actors::kind_of))]
fn kind_of(id: u32, value: &Value) -> Result<Kind, Refusal>
    ensures { result ≡ kind_of id (view value.now) }
{
    match kind_named(text_at(value, id, "kind")?) {
        Some(kind) => Ok(kind),
        None => Err(Refusal::UnknownKind(id)),
    }
}

/// The checks of an actor by itself. They give its name, and the name's text.
#[tactic(auto, unfolding(crate::specs::Actors::check_of))]
fn check<'v>(
    alloc: Global,
    earlier: &Names<'_>,
    id: u32,
    value: &'v Value,
) -> Result<(&'v str, Name), ScenarioFault>
    ensures value { Gives (ok_map (λ p. p.1) result) (check_of earlier.now id (view value.now)) }
    ensures text { IfOk result (λ p. p.0.now ≡ p.1) }
    ensures new { IfOk result (λ p. place_in earlier.now p.1 ≡ None) }
{
    if !value.is_object() {
        return Err(ScenarioFault::Refused(Refusal::WrongType(place(id, ""))));
    }
    let (text, name) = name_of(earlier, id, value)?;
    let kind = kind_of(id, value)?;
    no_unknown(Owner::Actor(kind), id, value)?;
    drop(contents_at(alloc, Pass::Check, earlier, id, value, fields_of(kind))?);
    Ok((text, name))
}

/// The checks of all actors in order. They give the names.
pub(crate) fn check_all<'v>(alloc: Global, values: &'v [Value]) -> Result<Names<'v>, ScenarioFault>
    requires { length values.now < 2 ^ 32 - 1 }
    ensures value { Gives result (names_of [] 1 (items_view values.now)) }
    ensures len { IfOk result (λ names. length names ≡ length values.now) }
{
    let mut names = Names::new(alloc);
    let mut id = 1;
    for value in values {
        let (text, name) = check(alloc, &names, id, value)?;
        names = names.with(text, name, id)?;
        id += 1;
    }
    Ok(names)
}

/// An actor at its start.
#[tactic(auto, unfolding(crate::specs::Actors::actor_of))]
fn finish(
    alloc: Global,
    names: &Names<'_>,
    id: u32,
    value: &Value,
) -> Result<AnyActor, ScenarioFault>
    ensures { Gives result (actor_of names.now id (view value.now)) }
{
    let kind = kind_of(id, value)?;
    let contents = contents_at(alloc, Pass::Finish, names, id, value, fields_of(kind))?;
    Ok(build(kind, &contents, alloc)?)
}

/// All actors at their start, by their names and their values.
pub(crate) fn finish_all(
    alloc: Global,
    names: &Names<'_>,
    values: &[Value],
) -> Result<Items<Start<AnyActor>>, ScenarioFault>
    requires len { length names.now ≡ length values.now }
    requires most { length values.now < 2 ^ 32 - 1 }
    ensures { Gives result (starts_of names.now 1 names.now (items_view values.now)) }
{
    let mut starts = Vec::with_capacity(alloc, values.len())?;
    let mut at = 0;
    for value in values {
        let name = names.at(at);
        at += 1;
        let state = finish(alloc, names, at as u32, value)?;
        starts.push(Start { name, state })?;
    }
    Ok(Items::of(starts))
}
