//! The tree that a scenario is printed as.
ghost use Rattle.std.specs.Prelude.{◌≡◌, map, length, true, IfOk, OnOk};
ghost use Rattle.std.specs.List.{list_all};
ghost use Rattle.serde_json.specs.Data.{no_members, put, string};
ghost use Rattle.serde_json.specs.View.{items_view, members_view, view};
ghost use Rattle.sim_base.specs.Names.{is_name};
ghost use Rattle.scenario.specs.Print.{actor_tree, actor_trees, content_tree, kind_members, name_at, text_trees, tree_for, whole_members, whole_tree, with_contents};
ghost use Rattle.scenario.specs.Table.{row_of};
ghost use Rattle.scenario.specs.Valid.{AreActors, AreNames, AreOpening, AreWithin, IsActor, IsOpening, IsScenario, IsWithin, is_rule, names_in};

use crate::contents::{Content, kind_of_actor, show};
use crate::table::{Field, fields_of, kind_name};
use crate::whole::Limits;
use crate::{AnyActor, Scenario};
use serde_json::{Map, Value};
use sim_base::{ActorId, Items, Name};
use sim_model::Start;
use std::alloc::{AllocError, Global};

/// A name as a text.
fn text_of(name: &Name) -> &str
    requires { is_name name.now ≡ true }
    ensures { result.now ≡ name.now }
{
    match str::from_utf8(name.as_bytes()) {
        Ok(text) => text,
        Err(_) => unreachable!(),
    }
}

/// The name of an actor.
fn name_at<'a>(starts: &'a [Start<AnyActor>], id: ActorId) -> &'a str
    requires there { IsActor (length starts.now) id }
    requires named { AreNames starts.now }
    ensures { result.now ≡ name_at (names_in starts.now) id }
{
    text_of(&starts[(id.0 - 1) as usize].name)
}

/// A text as a value.
fn text_value(alloc: Global, text: &str) -> Result<Value, AllocError>
    ensures { IfOk result (λ v. view v ≡ string text.now) }
{
    Ok(Value::String(String::from_str(alloc, text)?))
}

/// A member put among these.
fn put(
    alloc: Global,
    members: &mut Map<String, Value>,
    key: &str,
    value: Value,
) -> Result<(), AllocError>
    ensures { OnOk result (members_view members.new.entries ≡ put key.now (view value) (members_view members.old.entries)) }
{
    let name = String::from_str(alloc, key)?;
    drop(members.insert(name, value)?);
    Ok(())
}

/// The names of actors.
fn name_values(
    alloc: Global,
    starts: &[Start<AnyActor>],
    ids: &[ActorId],
) -> Result<Vec<Value>, AllocError>
    requires there { AreActors (length starts.now) ids.now }
    requires named { AreNames starts.now }
    ensures { IfOk result (λ v. items_view v.items ≡ text_trees (map (name_at (names_in starts.now)) ids.now)) }
{
    let mut values = Vec::with_capacity(alloc, ids.len())?;
    for id in ids {
        values.push(text_value(alloc, name_at(starts, *id))?)?;
    }
    Ok(values)
}

fn content_value(
    alloc: Global,
    starts: &[Start<AnyActor>],
    content: &Content,
) -> Result<Value, AllocError>
    requires there { IsWithin (length starts.now) content.now }
    requires named { AreNames starts.now }
    ensures { IfOk result (λ v. view v ≡ content_tree (names_in starts.now) content.now) }
{
    match content {
        Content::Number(n) => Ok(Value::from(*n)),
        Content::Actor(id) => text_value(alloc, name_at(starts, *id)),
        Content::Route(route) => Ok(Value::Array(name_values(alloc, starts, route.as_slice())?)),
    }
}

/// These members, with those of the fields.
fn put_contents(
    alloc: Global,
    starts: &[Start<AnyActor>],
    fields: &[Field],
    contents: &[Content],
    members: &mut Map<String, Value>,
) -> Result<(), AllocError>
    requires there { AreWithin (length starts.now) contents.now }
    requires named { AreNames starts.now }
    requires same { length fields.now ≡ length contents.now }
    ensures { OnOk result (members_view members.new.entries ≡ with_contents (names_in starts.now) (map row_of fields.now) contents.now (members_view members.old.entries)) }
{
    let mut at = 0;
    for content in contents {
        let value = content_value(alloc, starts, content)?;
        put(alloc, members, fields[at].0, value)?;
        at += 1;
    }
    Ok(())
}

/// The members of an actor beside its kind's fields.
fn kind_members(alloc: Global, kind: &str, name: &str) -> Result<Map<String, Value>, AllocError>
    ensures { IfOk result (λ m. members_view m.entries ≡ kind_members kind.now name.now) }
{
    let mut members = Map::new(alloc);
    put(alloc, &mut members, "kind", text_value(alloc, kind)?)?;
    put(alloc, &mut members, "name", text_value(alloc, name)?)?;
    Ok(members)
}

fn actor_value(
    alloc: Global,
    starts: &[Start<AnyActor>],
    start: &Start<AnyActor>,
) -> Result<Value, AllocError>
    requires opening { IsOpening (length starts.now) start.now.state }
    requires name { is_name start.now.name ≡ true }
    requires named { AreNames starts.now }
    ensures { IfOk result (λ v. view v ≡ actor_tree (names_in starts.now) start.now) }
{
    let contents = show(alloc, &start.state)?;
    let Some(kind) = kind_of_actor(&start.state) else {
        unreachable!();
    };
    let mut members = kind_members(alloc, kind_name(kind), text_of(&start.name))?;
    put_contents(alloc, starts, fields_of(kind), &contents, &mut members)?;
    Ok(Value::Object(members))
}

fn actor_values(alloc: Global, starts: &[Start<AnyActor>]) -> Result<Vec<Value>, AllocError>
    requires opening { AreOpening (length starts.now) starts.now }
    requires named { AreNames starts.now }
    ensures { IfOk result (λ v. items_view v.items ≡ actor_trees (names_in starts.now) starts.now) }
{
    let mut values = Vec::with_capacity(alloc, starts.len())?;
    for start in starts {
        values.push(actor_value(alloc, starts, start)?)?;
    }
    Ok(values)
}

fn rule_value(alloc: Global, text: &[u8]) -> Result<Value, AllocError>
    requires { is_rule text.now ≡ true }
    ensures { IfOk result (λ v. view v ≡ string text.now) }
{
    Ok(Value::String(String::from_utf8_lossy(alloc, text)?))
}

fn rule_values(alloc: Global, texts: &[Items<u8>]) -> Result<Vec<Value>, AllocError>
    requires { list_all is_rule texts.now ≡ true }
    ensures { IfOk result (λ v. items_view v.items ≡ text_trees texts.now) }
{
    let mut values = Vec::with_capacity(alloc, texts.len())?;
    for text in texts {
        values.push(rule_value(alloc, text.as_slice())?)?;
    }
    Ok(values)
}

/// The members that both formats have.
fn whole_members(
    alloc: Global,
    limits: &Limits,
    actors: Vec<Value>,
    results: Vec<Value>,
) -> Result<Map<String, Value>, AllocError>
    ensures { IfOk result (λ m. members_view m.entries ≡ whole_members limits.now (items_view actors.items) (items_view results.items) no_members) }
{
    let mut members = Map::new(alloc);
    put(alloc, &mut members, "actors", Value::Array(actors))?;
    put(alloc, &mut members, "results", Value::Array(results))?;
    put(
        alloc,
        &mut members,
        "diasca_limit",
        Value::from(limits.diasca_limit),
    )?;
    put(alloc, &mut members, "format", Value::from(limits.format))?;
    put(
        alloc,
        &mut members,
        "last_tick",
        Value::from(limits.last_tick),
    )?;
    put(
        alloc,
        &mut members,
        "max_actors",
        Value::from(limits.max_actors),
    )?;
    put(alloc, &mut members, "seed", Value::from(limits.seed))?;
    Ok(members)
}

/// The whole; format 1 doesn't have the field `urgent`.
fn whole_value(
    alloc: Global,
    limits: &Limits,
    actors: Vec<Value>,
    results: Vec<Value>,
    urgent: Vec<Value>,
) -> Result<Value, AllocError>
    ensures { IfOk result (λ v. view v ≡ whole_tree limits.now (items_view actors.items) (items_view results.items) (items_view urgent.items)) }
{
    let mut members = whole_members(alloc, limits, actors, results)?;
    if limits.format == 1 {
        return Ok(Value::Object(members));
    }
    put(alloc, &mut members, "urgent", Value::Array(urgent))?;
    Ok(Value::Object(members))
}

/// The tree of a scenario.
pub(crate) fn tree_value(alloc: Global, scenario: &Scenario) -> Result<Value, AllocError>
    ensures value { IfOk result (λ v. view v ≡ tree_for scenario.now) }
    ensures valid { IsScenario scenario.now }
{
    let setup = &scenario.setup;
    let starts = setup.actors.as_slice();
    let actors = actor_values(alloc, starts)?;
    let results = rule_values(alloc, scenario.texts.as_slice())?;
    let urgent = name_values(alloc, starts, setup.urgent.as_slice())?;
    let limits = Limits {
        format: scenario.format,
        seed: setup.seed,
        last_tick: setup.last_tick,
        diasca_limit: setup.diasca_limit,
        max_actors: setup.max_actors,
    };
    whole_value(alloc, &limits, actors, results, urgent)
}
