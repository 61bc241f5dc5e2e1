//! The fields of an object.
ghost use Rattle.std.specs.Prelude.{◌≡◌, ◌≤◌, map, length, IfOk, option_map};
ghost use Rattle.serde_json.specs.View.{view, items_view, members_view};
ghost use Rattle.scenario.specs.Answers.{Gives, ok_map, place_of};
ghost use Rattle.scenario.specs.Fields.{all_texts, in_range, is_field, least_unknown, no_unknown, number_at, number_or, text_at, texts_at, texts_or, whole};

use crate::table::{Kind, fields_of, is_among};
use crate::{FieldText, Place, Refusal, ScenarioFault};
use serde_json::{Map, Value};
use std::alloc::{AllocError, Global};

/// Whose fields they are.
#[derive(Clone, Copy)]
pub(crate) enum Owner {
    Whole,
    Actor(Kind),
}

/// The field of an actor, or of the whole for 0.
pub(crate) fn place(actor: u32, field: &str) -> Place
    ensures { result ≡ place_of actor field.now }
{
    Place {
        actor,
        field: FieldText::of(field.as_bytes()),
    }
}

fn whole(value: &Value) -> Option<i128>
    ensures { result ≡ whole (view value.now) }
{
    value.as_number()?.as_i128()
}

#[tactic(auto, unfolding(crate::specs::Fields::in_range))]
fn in_range(actor: u32, field: &str, low: u64, high: u64, number: i128) -> Result<u64, Refusal>
    ensures value { result ≡ in_range (place_of actor field.now) low high number }
    ensures range { IfOk result (λ n. (low ≤ n) × (n ≤ high)) }
{
    if number < (low as i128) || (high as i128) < number {
        return Err(Refusal::OutOfRange(place(actor, field), number));
    }
    Ok(number as u64)
}

/// The whole number of a field, from `low` to `high`.
#[tactic(auto, unfolding(crate::specs::Fields::number_at))]
pub(crate) fn number_at(
    object: &Value,
    actor: u32,
    field: &str,
    low: u64,
    high: u64,
) -> Result<u64, Refusal>
    ensures value { result ≡ number_at actor field.now low high (view object.now) }
    ensures range { IfOk result (λ n. (low ≤ n) × (n ≤ high)) }
{
    let Some(value) = object.get(field) else {
        return Err(Refusal::Missing(place(actor, field)));
    };
    match whole(value) {
        Some(number) => in_range(actor, field, low, high, number),
        None => Err(Refusal::WrongType(place(actor, field))),
    }
}

/// The same number of the whole's field, or a default where the field isn't there.
#[tactic(auto, unfolding(crate::specs::Fields::number_or))]
pub(crate) fn number_or(
    object: &Value,
    field: &str,
    default: u64,
    low: u64,
    high: u64,
) -> Result<u64, Refusal>
    requires low { low ≤ default }
    requires high { default ≤ high }
    ensures value { result ≡ number_or field.now default low high (view object.now) }
    ensures range { IfOk result (λ n. (low ≤ n) × (n ≤ high)) }
{
    if object.get(field).is_none() {
        return Ok(default);
    }
    number_at(object, 0, field, low, high)
}

/// The text of a field.
#[tactic(auto, unfolding(crate::specs::Fields::text_at))]
pub(crate) fn text_at<'v>(object: &'v Value, actor: u32, field: &str) -> Result<&'v str, Refusal>
    ensures { ok_map (λ s. s.now) result ≡ text_at actor field.now (view object.now) }
{
    let Some(value) = object.get(field) else {
        return Err(Refusal::Missing(place(actor, field)));
    };
    match value.as_str() {
        Some(text) => Ok(text),
        None => Err(Refusal::WrongType(place(actor, field))),
    }
}

/// The texts, if each value is one.
fn all_texts<'v>(alloc: Global, values: &'v [Value]) -> Result<Option<Vec<&'v str>>, AllocError>
    ensures { IfOk result (λ o. option_map (λ v. map (λ t. t.now) v.items) o ≡ all_texts (items_view values.now)) }
{
    let mut texts = Vec::with_capacity(alloc, values.len())?;
    for value in values {
        let Some(text) = value.as_str() else {
            return Ok(None);
        };
        texts.push(text)?;
    }
    Ok(Some(texts))
}

/// The texts of a field that holds a list of `few` to `many` of them.
#[tactic(auto, unfolding(crate::specs::Fields::texts_at))]
pub(crate) fn texts_at<'v>(
    alloc: Global,
    object: &'v Value,
    actor: u32,
    field: &str,
    few: usize,
    many: usize,
) -> Result<Vec<&'v str>, ScenarioFault>
    ensures value { Gives (ok_map (λ v. map (λ t. t.now) v.items) result) (texts_at actor field.now few many (view object.now)) }
    ensures range { IfOk result (λ v. length v.items ≤ many) }
{
    let Some(value) = object.get(field) else {
        return Err(ScenarioFault::Refused(Refusal::Missing(place(actor, field))));
    };
    let Some(values) = value.as_array() else {
        return Err(ScenarioFault::Refused(Refusal::WrongType(place(actor, field))));
    };
    let Some(texts) = all_texts(alloc, values)? else {
        return Err(ScenarioFault::Refused(Refusal::WrongType(place(actor, field))));
    };
    let count = texts.len();
    if count < few || many < count {
        return Err(ScenarioFault::Refused(Refusal::OutOfRange(place(actor, field), count as i128)));
    }
    Ok(texts)
}

/// At most `many` texts of a field of the whole; where the field isn't there, the default.
#[tactic(auto, unfolding(crate::specs::Fields::texts_or))]
pub(crate) fn texts_or<'v>(
    alloc: Global,
    object: &'v Value,
    field: &str,
    default: Vec<&'v str>,
    many: usize,
) -> Result<Vec<&'v str>, ScenarioFault>
    requires { length default.items ≤ many }
    ensures value { Gives (ok_map (λ v. map (λ t. t.now) v.items) result) (texts_or field.now (map (λ t. t.now) default.entry.items) many (view object.now)) }
    ensures range { IfOk result (λ v. length v.items ≤ many) }
{
    if object.get(field).is_none() {
        return Ok(default);
    }
    texts_at(alloc, object, 0, field, 0, many)
}

#[tactic(auto, unfolding(crate::specs::Fields::is_field))]
fn is_field(owner: Owner, key: &str) -> bool
    ensures { result ≡ is_field owner key.now }
{
    match owner {
        Owner::Whole => {
            key == "format"
                || key == "seed"
                || key == "last_tick"
                || key == "diasca_limit"
                || key == "max_actors"
                || key == "urgent"
                || key == "results"
                || key == "actors"
        }
        Owner::Actor(kind) => key == "name" || key == "kind" || is_among(fields_of(kind), key),
    }
}

/// The least field that is none of the owner's: the keys of an object are in the order of their bytes.
fn least_unknown(owner: Owner, object: &Map<String, Value>) -> Option<&str>
    ensures { option_map (λ s. s.now) result ≡ least_unknown owner (members_view object.now.entries) }
{
    for key in object.keys() {
        if !is_field(owner, key.as_str()) {
            return Some(key.as_str());
        }
    }
    None
}

/// Refuses a field that is none of the owner's.
#[tactic(auto, unfolding(crate::specs::Fields::no_unknown))]
pub(crate) fn no_unknown(owner: Owner, actor: u32, value: &Value) -> Result<(), Refusal>
    ensures { result ≡ no_unknown owner actor (view value.now) }
{
    let Some(object) = value.as_object() else {
        return Err(Refusal::WrongType(place(actor, "")));
    };
    match least_unknown(owner, object) {
        Some(field) => Err(Refusal::UnknownField(place(actor, field))),
        None => Ok(()),
    }
}
