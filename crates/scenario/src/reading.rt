//! What the fields of an actor hold.
ghost use Rattle.std.specs.Prelude.{◌≡◌, map};
ghost use Rattle.serde_json.specs.View.{view};
ghost use Rattle.scenario.specs.Answers.{Gives, ok_map, place_of};
ghost use Rattle.scenario.specs.Reading.{content_at, contents_at, least_of, look, look_all, number_in};
ghost use Rattle.scenario.specs.Table.{row_of};

use crate::contents::Content;
use crate::fields::{number_at, place, text_at, texts_at};
use crate::names::Names;
use crate::table::{Field, Least, Sort};
use crate::{Refusal, ScenarioFault};
use serde_json::Value;
use sim_base::{ActorId, Items};
use std::alloc::Global;

/// The most names of a route.
const MOST_NAMES: usize = 32;

/// Nobody's number, which stands for whoever is named while only checks are made.
const NOBODY: ActorId = ActorId(0);

/// Whether actors are only checked, or finished with those that they name.
#[derive(Clone, Copy)]
pub(crate) enum Pass {
    Check,
    Finish,
}

/// The actor of a name.
fn look(
    pass: Pass,
    names: &Names<'_>,
    actor: u32,
    field: &str,
    text: &str,
) -> Result<ActorId, Refusal>
    ensures { result ≡ look pass names.now (place_of actor field.now) text.now }
{
    match pass {
        Pass::Check => Ok(NOBODY),
        Pass::Finish => match names.find(text) {
            Some(found) => Ok(ActorId(found)),
            None => Err(Refusal::UnknownActor(place(actor, field))),
        },
    }
}

/// The actors of names, in order.
pub(crate) fn look_all(
    alloc: Global,
    pass: Pass,
    names: &Names<'_>,
    actor: u32,
    field: &str,
    texts: &[&str],
) -> Result<Items<ActorId>, ScenarioFault>
    ensures { Gives result (look_all pass names.now (place_of actor field.now) (map (λ t. t.now) texts.now)) }
{
    let mut found = Vec::with_capacity(alloc, texts.len())?;
    for text in texts {
        found.push(look(pass, names, actor, field, text)?)?;
    }
    Ok(Items::of(found))
}

fn least_of(before: u64, least: Least) -> u64
    ensures { result ≡ least_of before least }
{
    match least {
        Least::Number(n) => n,
        Least::Before => before,
    }
}

fn number_in(content: &Content) -> u64
    ensures { result ≡ number_in content.now }
{
    match content {
        Content::Number(n) => *n,
        Content::Actor(_) | Content::Route(_) => 0,
    }
}

#[tactic(auto, unfolding(crate::specs::Reading::content_at))]
fn content_at(
    alloc: Global,
    pass: Pass,
    names: &Names<'_>,
    actor: u32,
    object: &Value,
    before: u64,
    field: &Field,
) -> Result<Content, ScenarioFault>
    ensures { Gives result (content_at pass names.now actor (view object.now) before field.now.0.now field.now.1) }
{
    match field.1 {
        Sort::Number(least, most) => {
            let low = least_of(before, least);
            Ok(Content::Number(number_at(object, actor, field.0, low, most)?))
        }
        Sort::Actor => {
            let text = text_at(object, actor, field.0)?;
            Ok(Content::Actor(look(pass, names, actor, field.0, text)?))
        }
        Sort::Route => {
            let texts = texts_at(alloc, object, actor, field.0, 1, MOST_NAMES)?;
            Ok(Content::Route(look_all(alloc, pass, names, actor, field.0, &texts)?))
        }
    }
}

/// The contents of the fields, in order.
pub(crate) fn contents_at(
    alloc: Global,
    pass: Pass,
    names: &Names<'_>,
    actor: u32,
    object: &Value,
    fields: &[Field],
) -> Result<Vec<Content>, ScenarioFault>
    ensures { Gives (ok_map (λ v. v.items) result) (contents_at pass names.now actor (view object.now) 0 (map row_of fields.now)) }
{
    let mut contents = Vec::with_capacity(alloc, fields.len())?;
    let mut before = 0;
    for field in fields {
        let content = content_at(alloc, pass, names, actor, object, before, field)?;
        before = number_in(&content);
        contents.push(content)?;
    }
    Ok(contents)
}
