use scenario::{FieldText, Place, Refusal, Scenario, ScenarioFault};
use sim_base::Name;
use std::process::Abort;
use std::test::Fail;

/// Why a text is refused; fields stand by their names, and 0 as an actor is the whole.
#[derive(Clone, Copy)]
pub(crate) enum Cause<'a> {
    NotJson,
    WrongType(u32, &'a str),
    Missing(u32, &'a str),
    UnknownField(u32, &'a str),
    OutOfRange(u32, &'a str, i128),
    BadRule(u32),
    TooManyActors(u64),
    BadName(u32),
    Twice(&'a str),
    UnknownKind(u32),
    UnknownActor(u32, &'a str),
}

use Cause::{
    BadName, BadRule, Missing, NotJson, OutOfRange, TooManyActors, Twice, UnknownActor,
    UnknownField, UnknownKind, WrongType,
};

fn place(actor: u32, field: &str) -> Place {
    Place {
        actor,
        field: FieldText::of(field.as_bytes()),
    }
}

fn refusal(cause: Cause<'_>) -> Result<Refusal, Fail> {
    Ok(match cause {
        NotJson => Refusal::NotJson,
        WrongType(actor, field) => Refusal::WrongType(place(actor, field)),
        Missing(actor, field) => Refusal::Missing(place(actor, field)),
        UnknownField(actor, field) => Refusal::UnknownField(place(actor, field)),
        OutOfRange(actor, field, value) => Refusal::OutOfRange(place(actor, field), value),
        BadRule(number) => Refusal::BadRule(number),
        TooManyActors(count) => Refusal::TooManyActors(count),
        BadName(actor) => Refusal::BadName(actor),
        Twice(name) => Refusal::Twice(Name::read(name.as_bytes()).ok_or("a name")?),
        UnknownKind(actor) => Refusal::UnknownKind(actor),
        UnknownActor(actor, field) => Refusal::UnknownActor(place(actor, field)),
    })
}

/// The text is refused by this cause.
pub(crate) fn refuses(
    rt: &(impl AllocGlobal + Abort),
    text: &str,
    cause: Cause<'_>,
) -> Result<(), Fail> {
    let expected = refusal(cause)?;
    let read = Scenario::read(rt.alloc(), text.as_bytes());
    match &read {
        Err(ScenarioFault::Refused(found)) => assert!(rt; *found == expected, "{text}"),
        _ => assert!(rt; false, "{text}"),
    }
    Ok(())
}

/// Each of these texts is refused by its cause: the first check that fails.
pub(crate) fn refuses_each(
    rt: &(impl AllocGlobal + Abort),
    cases: &[(&str, Cause<'_>)],
) -> Result<(), Fail> {
    for (text, cause) in cases {
        refuses(rt, text, *cause)?;
    }
    Ok(())
}

/// Texts that are no JSON, or no object of the known fields.
const WHOLE: [(&str, Cause); 19] = [
    (r#"{"format":1,"#, NotJson),
    (r#""#, NotJson),
    (r#"{"format":1,"seed":1e999}"#, NotJson),
    (r#"[]"#, WrongType(0, "scenario")),
    (r#"7"#, WrongType(0, "scenario")),
    (r#""scenario""#, WrongType(0, "scenario")),
    (r#"null"#, WrongType(0, "scenario")),
    (r#"{}"#, Missing(0, "format")),
    (
        r#"{"format":1,"seed":18446744073709551615}"#,
        Missing(0, "last_tick"),
    ),
    (r#"{"format":1,"last_tick":4}"#, Missing(0, "actors")),
    (r#"{"format":1,"actors":[]}"#, Missing(0, "last_tick")),
    (r#"{"format":1,"zeta":1}"#, UnknownField(0, "zeta")),
    (r#"{"format":1,"urgent":[]}"#, Missing(0, "last_tick")),
    (
        r#"{"format":1,"zeta":1,"Zeta":2,"actors":[]}"#,
        UnknownField(0, "Zeta"),
    ),
    (r#"{"":1,"format":1}"#, UnknownField(0, "")),
    (
        "{\"caf\u{e9}\u{7f}~ \":1}",
        UnknownField(0, "caf\u{e9}\u{7f}~ "),
    ),
    (r#"{"\u0000\n":1}"#, UnknownField(0, "\0\n")),
    (
        "{\"aaaaaaaaaaaaaaaaaaaaaaaaaaaaaaaaaaaaaaaaaaaaaaaaaaaaaaaaaaaaaaa\u{e9}\":1}",
        UnknownField(
            0,
            "aaaaaaaaaaaaaaaaaaaaaaaaaaaaaaaaaaaaaaaaaaaaaaaaaaaaaaaaaaaaaaa\u{e9}",
        ),
    ),
    (
        r#"{"aaaaaaaaaaaaaaaaaaaaaaaaaaaaaaaaaaaaaaaaaaaaaaaaaaaaaaaaaaaaaaaab":1}"#,
        UnknownField(
            0,
            "aaaaaaaaaaaaaaaaaaaaaaaaaaaaaaaaaaaaaaaaaaaaaaaaaaaaaaaaaaaaaaaa",
        ),
    ),
];

#[test]
fn a_whole_of_other_fields_is_refused(rt: HostRuntime) -> Result<(), Fail> {
    refuses_each(&rt, &WHOLE)
}

/// Texts of which a field of the whole is of the wrong type or out of range.
const NUMBERS: [(&str, Cause); 24] = [
    (r#"{"format":"1"}"#, WrongType(0, "format")),
    (
        r#"{"format":1,"seed":-9223372036854775809}"#,
        WrongType(0, "seed"),
    ),
    (
        r#"{"format":1,"last_tick":null}"#,
        WrongType(0, "last_tick"),
    ),
    (
        r#"{"format":1,"last_tick":4,"max_actors":true}"#,
        WrongType(0, "max_actors"),
    ),
    (
        r#"{"format":1,"last_tick":4,"actors":{}}"#,
        WrongType(0, "actors"),
    ),
    (
        r#"{"format":1,"last_tick":4,"results":"+*"}"#,
        WrongType(0, "results"),
    ),
    (
        r#"{"format":1,"last_tick":4,"results":[1,"x"]}"#,
        WrongType(0, "results"),
    ),
    (
        r#"{"format":1,"last_tick":4,"results":[],"actors":1}"#,
        WrongType(0, "actors"),
    ),
    (
        r#"{"format":1,"seed":1.0,"last_tick":4,"actors":[]}"#,
        WrongType(0, "seed"),
    ),
    (
        r#"{"format":1,"seed":-0,"last_tick":4,"actors":[]}"#,
        WrongType(0, "seed"),
    ),
    (
        r#"{"format":1,"seed":1e2,"last_tick":4,"actors":[]}"#,
        WrongType(0, "seed"),
    ),
    (
        r#"{"format":1,"seed":18446744073709551616,"last_tick":4,"actors":[]}"#,
        WrongType(0, "seed"),
    ),
    (
        r#"{"format":1,"last_tick":1,"last_tick":"1","actors":[]}"#,
        WrongType(0, "last_tick"),
    ),
    (
        r#"{"format":1,"last_tick":4,"results":{},"actors":[]}"#,
        WrongType(0, "results"),
    ),
    (
        r#"{"format":1,"last_tick":4,"results":["+*",1,"x"],"actors":[]}"#,
        WrongType(0, "results"),
    ),
    (r#"{"format":0,"seed":-1}"#, OutOfRange(0, "format", 0)),
    (
        r#"{"format":1,"seed":-9223372036854775808}"#,
        OutOfRange(0, "seed", -9223372036854775808),
    ),
    (
        r#"{"format":3,"seed":[],"last_tick":1}"#,
        OutOfRange(0, "format", 3),
    ),
    (
        r#"{"format":1,"seed":-1,"last_tick":4,"actors":[]}"#,
        OutOfRange(0, "seed", -1),
    ),
    (
        r#"{"format":1,"last_tick":1000000001,"actors":[]}"#,
        OutOfRange(0, "last_tick", 1000000001),
    ),
    (
        r#"{"format":1,"last_tick":4,"diasca_limit":0,"actors":[]}"#,
        OutOfRange(0, "diasca_limit", 0),
    ),
    (
        r#"{"format":1,"last_tick":4,"diasca_limit":65536,"actors":[]}"#,
        OutOfRange(0, "diasca_limit", 65536),
    ),
    (
        r#"{"format":1,"last_tick":4,"max_actors":0,"actors":[]}"#,
        OutOfRange(0, "max_actors", 0),
    ),
    (
        r#"{"format":1,"last_tick":4,"max_actors":200001,"actors":[]}"#,
        OutOfRange(0, "max_actors", 200001),
    ),
];

#[test]
fn fields_of_the_whole_are_checked(rt: HostRuntime) -> Result<(), Fail> {
    refuses_each(&rt, &NUMBERS)
}

/// Rules, names and kinds that are none, and too many actors.
const LISTS: [(&str, Cause); 16] = [
    (
        r#"{"format":1,"last_tick":4,"results":["+a*","-b","*"],"actors":1}"#,
        BadRule(3),
    ),
    (
        r#"{"format":1,"last_tick":4,"results":["+aaaaaaaaaaaaaaaaaaaaaaaaaaaaaaaaaaaaaaaaaaaaaaaaaaaaaaaaaaaaaaaaa"]}"#,
        BadRule(1),
    ),
    (
        r#"{"format":1,"last_tick":4,"results":["+a*","x"],"actors":[]}"#,
        BadRule(2),
    ),
    (
        r#"{"format":1,"last_tick":4,"results":["+"],"actors":[]}"#,
        BadRule(1),
    ),
    (
        r#"{"format":1,"last_tick":4,"results":["+A"],"actors":[]}"#,
        BadRule(1),
    ),
    (
        r#"{"format":1,"last_tick":4,"results":["-****************************************************************","+*****************************************************************"],"actors":[]}"#,
        BadRule(2),
    ),
    (
        r#"{"format":1,"last_tick":4,"max_actors":1,"actors":[1,2,3]}"#,
        TooManyActors(3),
    ),
    (
        r#"{"format":1,"last_tick":4,"actors":[{"name":""}]}"#,
        BadName(1),
    ),
    (
        r#"{"format":1,"last_tick":4,"actors":[{"name":"A"}]}"#,
        BadName(1),
    ),
    (
        r#"{"format":1,"last_tick":4,"actors":[{"name":"b-c"}]}"#,
        BadName(1),
    ),
    (
        r#"{"format":1,"last_tick":4,"actors":[{"name":"a234567890_234567890_234567890_23"}]}"#,
        BadName(1),
    ),
    (
        r#"{"format":1,"last_tick":4,"actors":[{"name":"c","kind":"clock","period":2,"count":2},{"name":"c","kind":"zeta"}]}"#,
        Twice("c"),
    ),
    (
        r#"{"format":1,"last_tick":4,"actors":[{"name":"a","kind":"clock","period":1,"count":1},{"name":"a","kind":"clock"},{"name":"b-c"}]}"#,
        Twice("a"),
    ),
    (
        r#"{"format":1,"last_tick":4,"actors":[{"name":"a","kind":"vehicle"}]}"#,
        UnknownKind(1),
    ),
    (
        r#"{"format":1,"last_tick":4,"actors":[{"name":"a","kind":"Clock"}]}"#,
        UnknownKind(1),
    ),
    (
        r#"{"format":1,"last_tick":4,"actors":[{"name":"o","kind":"origin","route":["r"],"period":1,"count":2}]}"#,
        UnknownActor(1, "route"),
    ),
];

#[test]
fn rules_names_and_kinds_are_checked(rt: HostRuntime) -> Result<(), Fail> {
    refuses_each(&rt, &LISTS)
}

/// Fields of actors that are missing, unknown or of the wrong type, or that name nobody.
const ACTORS: [(&str, Cause); 27] = [
    (
        r#"{"format":1,"last_tick":4,"actors":[{"name":"c","kind":"clock","period":2,"count":2},[]]}"#,
        WrongType(2, ""),
    ),
    (
        r#"{"format":1,"last_tick":4,"actors":[{"name":"a","kind":1}]}"#,
        WrongType(1, "kind"),
    ),
    (
        r#"{"format":1,"last_tick":4,"actors":[{"name":"c","kind":"clock","period":1.5,"count":2}]}"#,
        WrongType(1, "period"),
    ),
    (
        r#"{"format":1,"last_tick":4,"actors":[{"name":"c","kind":"clock","period":2,"count":"2"}]}"#,
        WrongType(1, "count"),
    ),
    (
        r#"{"format":1,"last_tick":4,"actors":[{"name":"a","kind":"random_customer","machine":["a"],"low":1,"high":1,"money":0,"offer":0}]}"#,
        WrongType(1, "machine"),
    ),
    (
        r#"{"format":1,"last_tick":4,"actors":[[]]}"#,
        WrongType(1, ""),
    ),
    (
        r#"{"format":1,"last_tick":4,"actors":[{"name":7}]}"#,
        WrongType(1, "name"),
    ),
    (
        r#"{"format":1,"last_tick":4,"actors":[{"name":"c","kind":"clock","period":"2","count":-1}]}"#,
        WrongType(1, "period"),
    ),
    (
        r#"{"format":1,"last_tick":9,"diasca_limit":5,"results":["+*"],"actors":[{"name":"p","kind":"ball","peer":1,"at":1,"hits":9},{"name":"q","kind":"ball","peer":"p","at":1,"hits":0}]}"#,
        WrongType(1, "peer"),
    ),
    (
        r#"{"format":1,"last_tick":4,"actors":[{"name":"aaaaaaaaaaaaaaaaaaaaaaaaaaaaaaaa"}]}"#,
        Missing(1, "kind"),
    ),
    (
        r#"{"format":1,"last_tick":4,"actors":[{"name":"p","kind":"ball"}]}"#,
        Missing(1, "peer"),
    ),
    (
        r#"{"format":1,"last_tick":4,"actors":[{"name":"f","kind":"fuse","code":1}]}"#,
        Missing(1, "at"),
    ),
    (
        r#"{"format":1,"last_tick":4,"actors":[{"name":"m","kind":"machine","stock":0,"price":0}]}"#,
        Missing(1, "close_at"),
    ),
    (
        r#"{"format":1,"last_tick":4,"actors":[{},[]]}"#,
        Missing(1, "name"),
    ),
    (
        r#"{"format":1,"last_tick":4,"actors":[{"kind":"clock"}]}"#,
        Missing(1, "name"),
    ),
    (
        r#"{"format":1,"last_tick":4,"actors":[{"name":"a"}]}"#,
        Missing(1, "kind"),
    ),
    (
        r#"{"format":1,"last_tick":4,"actors":[{"name":"c","kind":"clock","count":2}]}"#,
        Missing(1, "period"),
    ),
    (
        r#"{"format":1,"last_tick":4,"actors":[{"name":"c","kind":"clock","period":2,"count":2,"route":[]}]}"#,
        UnknownField(1, "route"),
    ),
    (
        r#"{"format":1,"last_tick":4,"actors":[{"name":"c","kind":"clock","period":2,"count":2,"machine":"c","a":1}]}"#,
        UnknownField(1, "a"),
    ),
    (
        r#"{"format":1,"last_tick":4,"actors":[{"name":"c","kind":"clock","period":2,"count":2},{"name":"d","kind":"ball","hits":1,"zz":1}]}"#,
        UnknownField(2, "zz"),
    ),
    (
        r#"{"format":1,"last_tick":4,"actors":[{"name":"c","kind":"clock","period":2,"count":2,"":0}]}"#,
        UnknownField(1, ""),
    ),
    (
        r#"{"format":1,"last_tick":4,"actors":[{"name":"c","kind":"clock","period":2,"count":2,"peer":"c","beats":0}]}"#,
        UnknownField(1, "beats"),
    ),
    (
        r#"{"format":1,"last_tick":4,"actors":[{"name":"a","kind":"customer","machine":"m","period":1,"money":0,"offer":1}]}"#,
        UnknownActor(1, "machine"),
    ),
    (
        r#"{"format":1,"last_tick":4,"actors":[{"name":"r","kind":"refill","machine":"R","cans":1}]}"#,
        UnknownActor(1, "machine"),
    ),
    (
        r#"{"format":1,"last_tick":4,"actors":[{"name":"d","kind":"depot","machine":"x","at":1,"trucks":64,"cans":1}]}"#,
        UnknownActor(1, "machine"),
    ),
    (
        r#"{"format":1,"last_tick":9,"diasca_limit":5,"results":["+*"],"actors":[{"name":"p","kind":"ball","peer":"z","at":1,"hits":9},{"name":"q","kind":"ball","peer":"p","at":1,"hits":0}]}"#,
        UnknownActor(1, "peer"),
    ),
    (
        r#"{"format":1,"last_tick":9,"diasca_limit":5,"results":["+*"],"actors":[{"name":"p","kind":"ball","peer":"q","at":1,"hits":9},{"name":"q","kind":"ball","peer":"","at":1,"hits":0}]}"#,
        UnknownActor(2, "peer"),
    ),
];

#[test]
fn fields_of_actors_are_checked(rt: HostRuntime) -> Result<(), Fail> {
    refuses_each(&rt, &ACTORS)
}

/// Numbers of actors that are out of their range.
const RANGES: [(&str, Cause); 22] = [
    (
        r#"{"format":1,"last_tick":4,"actors":[{"name":"c","kind":"clock","period":0,"count":2}]}"#,
        OutOfRange(1, "period", 0),
    ),
    (
        r#"{"format":1,"last_tick":4,"actors":[{"name":"c","kind":"clock","period":-1,"count":2}]}"#,
        OutOfRange(1, "period", -1),
    ),
    (
        r#"{"format":1,"last_tick":4,"actors":[{"name":"c","kind":"clock","period":1000000001,"count":2}]}"#,
        OutOfRange(1, "period", 1000000001),
    ),
    (
        r#"{"format":1,"last_tick":4,"actors":[{"name":"c","kind":"clock","period":2,"count":-1}]}"#,
        OutOfRange(1, "count", -1),
    ),
    (
        r#"{"format":1,"last_tick":4,"actors":[{"name":"c","kind":"clock","count":-1,"period":0}]}"#,
        OutOfRange(1, "period", 0),
    ),
    (
        r#"{"format":1,"last_tick":4,"actors":[{"name":"p","kind":"ball","peer":"z","at":0,"hits":0}]}"#,
        OutOfRange(1, "at", 0),
    ),
    (
        r#"{"format":1,"last_tick":4,"actors":[{"name":"p","kind":"ball","peer":"z","at":1,"hits":0},{"name":"q","kind":"fuse","at":1,"code":900}]}"#,
        OutOfRange(2, "code", 900),
    ),
    (
        r#"{"format":1,"last_tick":4,"actors":[{"name":"f","kind":"fuse","at":0,"code":0}]}"#,
        OutOfRange(1, "code", 0),
    ),
    (
        r#"{"format":1,"last_tick":4,"actors":[{"name":"m","kind":"machine","stock":1000001,"price":0,"close_at":0}]}"#,
        OutOfRange(1, "stock", 1000001),
    ),
    (
        r#"{"format":1,"last_tick":4,"actors":[{"name":"m","kind":"machine","stock":0,"price":1000001,"close_at":0}]}"#,
        OutOfRange(1, "price", 1000001),
    ),
    (
        r#"{"format":1,"last_tick":4,"actors":[{"name":"a","kind":"customer","machine":"m","period":1,"money":1000000001,"offer":0}]}"#,
        OutOfRange(1, "money", 1000000001),
    ),
    (
        r#"{"format":1,"last_tick":4,"actors":[{"name":"a","kind":"customer","machine":"m","period":1,"money":0,"offer":1000001}]}"#,
        OutOfRange(1, "offer", 1000001),
    ),
    (
        r#"{"format":1,"last_tick":4,"actors":[{"name":"a","kind":"random_customer","machine":"m","low":0,"high":4,"money":0,"offer":0}]}"#,
        OutOfRange(1, "low", 0),
    ),
    (
        r#"{"format":1,"last_tick":4,"actors":[{"name":"r","kind":"refill","machine":"m","cans":0}]}"#,
        OutOfRange(1, "cans", 0),
    ),
    (
        r#"{"format":1,"last_tick":4,"actors":[{"name":"r","kind":"refill","machine":"r","cans":1000001}]}"#,
        OutOfRange(1, "cans", 1000001),
    ),
    (
        r#"{"format":1,"last_tick":4,"actors":[{"name":"d","kind":"depot","machine":"d","at":0,"trucks":1,"cans":1}]}"#,
        OutOfRange(1, "at", 0),
    ),
    (
        r#"{"format":1,"last_tick":4,"actors":[{"name":"d","kind":"depot","machine":"d","at":1,"trucks":65,"cans":1}]}"#,
        OutOfRange(1, "trucks", 65),
    ),
    (
        r#"{"format":1,"last_tick":4,"actors":[{"name":"d","kind":"depot","machine":"d","at":1,"trucks":64,"cans":0}]}"#,
        OutOfRange(1, "cans", 0),
    ),
    (
        r#"{"format":1,"last_tick":4,"actors":[{"name":"c","kind":"clock","period":1,"count":1000000001}]}"#,
        OutOfRange(1, "count", 1000000001),
    ),
    (
        r#"{"format":1,"last_tick":9,"diasca_limit":5,"results":["+*"],"actors":[{"name":"p","kind":"ball","peer":"z","at":1,"hits":9},{"name":"q","kind":"ball","peer":"p","at":1,"hits":-1}]}"#,
        OutOfRange(2, "hits", -1),
    ),
    (
        r#"{"format":1,"last_tick":4,"actors":[{"name":"a","kind":"fuse","at":0,"code":900}]}"#,
        OutOfRange(1, "code", 900),
    ),
    (
        r#"{"format":1,"last_tick":4,"actors":[{"name":"a","kind":"random_customer","machine":"a","low":9,"high":8,"money":0,"offer":0}]}"#,
        OutOfRange(1, "high", 8),
    ),
];

#[test]
fn numbers_of_actors_are_checked(rt: HostRuntime) -> Result<(), Fail> {
    refuses_each(&rt, &RANGES)
}

/// The front of a text with many rules.
const RULES: &str = r#"{"format":1,"last_tick":0,"results":["-*""#;

/// A list nests at most 127 deep, and there are at most 256 rules.
#[test]
fn long_texts_are_refused(rt: HostRuntime) -> Result<(), Fail> {
    let alloc = rt.alloc();
    for (front, opening, count, closing, back, cause) in [
        ("", "[", 127, "]", "", WrongType(0, "scenario")),
        ("", "[", 128, "]", "", NotJson),
        (r#"{"zeta":"#, "[", 126, "]", "}", UnknownField(0, "zeta")),
        (r#"{"zeta":"#, "[", 127, "]", "}", NotJson),
        (RULES, r#","+*""#, 255, "", "]}", Missing(0, "actors")),
        (
            RULES,
            r#","+*""#,
            256,
            "",
            "]}",
            OutOfRange(0, "results", 257),
        ),
        (
            RULES,
            r#","+*""#,
            255,
            "",
            r#","x"]}"#,
            OutOfRange(0, "results", 257),
        ),
    ] {
        let mut text = String::from_str(alloc, front)?;
        text.push_str(opening.repeat(alloc, count)?.as_str())?;
        text.push_str(closing.repeat(alloc, count)?.as_str())?;
        text.push_str(back)?;
        refuses(&rt, text.as_str(), cause)?;
    }
    Ok(())
}
