use crate::refusal_tests::{Cause, refuses, refuses_each};
use Cause::{Missing, OutOfRange, TooManyActors, UnknownActor, UnknownField, WrongType};
use scenario::{Scenario, ScenarioFault};
use sim_base::Items;
use std::alloc::Global;
use std::test::Fail;

/// Texts of which a format, a list of urgent senders or a route is refused.
const REFUSED: [(&str, Cause); 22] = [
    (r#"{"format":0,"last_tick":4}"#, OutOfRange(0, "format", 0)),
    (r#"{"format":3,"last_tick":4}"#, OutOfRange(0, "format", 3)),
    (
        r#"{"format":1,"last_tick":4,"max_actors":200001,"urgent":[]}"#,
        OutOfRange(0, "max_actors", 200001),
    ),
    (
        r#"{"format":2,"last_tick":4,"max_actors":1000001,"urgent":1}"#,
        OutOfRange(0, "max_actors", 1000001),
    ),
    (
        r#"{"format":2,"last_tick":4,"max_actors":200001,"urgent":[]}"#,
        Missing(0, "actors"),
    ),
    // An urgent sender stands where format 1 has none: at its place among the fields.
    (
        r#"{"format":1,"seed":0,"urgent":["a"],"results":1}"#,
        Missing(0, "last_tick"),
    ),
    (
        r#"{"format":1,"last_tick":4,"urgent":["a"],"results":1}"#,
        UnknownField(0, "urgent"),
    ),
    (
        r#"{"format":2,"last_tick":4,"urgent":"a","results":1}"#,
        WrongType(0, "urgent"),
    ),
    (
        r#"{"format":2,"last_tick":4,"urgent":["a",1],"results":1}"#,
        WrongType(0, "urgent"),
    ),
    (
        r#"{"format":2,"last_tick":4,"urgent":["a"],"results":1}"#,
        WrongType(0, "results"),
    ),
    (
        r#"{"format":2,"last_tick":4,"urgent":["f","x"],"actors":[{"name":"f","kind":"fuse","at":0,"code":1}]}"#,
        UnknownActor(0, "urgent"),
    ),
    // Actors that name nobody come before urgent senders that nobody is.
    (
        r#"{"format":2,"last_tick":4,"urgent":["x"],"actors":[{"name":"b","kind":"ball","peer":"y","at":1,"hits":1}]}"#,
        UnknownActor(1, "peer"),
    ),
    (
        r#"{"format":2,"last_tick":4,"max_actors":1,"urgent":["x"],"actors":[1,2]}"#,
        TooManyActors(2),
    ),
    (
        r#"{"format":1,"last_tick":4,"actors":[{"name":"o","kind":"origin","period":1,"count":2}]}"#,
        Missing(1, "route"),
    ),
    (
        r#"{"format":1,"last_tick":4,"actors":[{"name":"o","kind":"origin","route":"o","period":1,"count":2}]}"#,
        WrongType(1, "route"),
    ),
    (
        r#"{"format":1,"last_tick":4,"actors":[{"name":"o","kind":"origin","route":[],"period":0,"count":2}]}"#,
        OutOfRange(1, "route", 0),
    ),
    // The order of the fields: the route before the period.
    (
        r#"{"format":1,"last_tick":4,"actors":[{"name":"o","kind":"origin","route":["x"],"period":0,"count":2}]}"#,
        OutOfRange(1, "period", 0),
    ),
    (
        r#"{"format":1,"last_tick":4,"actors":[{"name":"o","kind":"origin","route":["o","x"],"period":1,"count":2}]}"#,
        UnknownActor(1, "route"),
    ),
    (
        r#"{"format":1,"last_tick":4,"actors":[{"name":"o","kind":"origin","route":["o"],"period":1,"count":100001}]}"#,
        OutOfRange(1, "count", 100001),
    ),
    (
        r#"{"format":1,"last_tick":4,"actors":[{"name":"r","kind":"road","length":0,"room":1}]}"#,
        OutOfRange(1, "length", 0),
    ),
    (
        r#"{"format":1,"last_tick":4,"actors":[{"name":"r","kind":"road","length":1,"room":1000001}]}"#,
        OutOfRange(1, "room", 1000001),
    ),
    (
        r#"{"format":1,"last_tick":4,"actors":[{"name":"r","kind":"road","length":1,"room":1,"cars":0}]}"#,
        UnknownField(1, "cars"),
    ),
];

#[test]
fn formats_urgent_senders_and_routes_are_checked(rt: HostRuntime) -> Result<(), Fail> {
    refuses_each(&rt, &REFUSED)
}

/// The front of a text with a long route.
const ROUTE: &str =
    r#"{"format":1,"last_tick":0,"actors":[{"name":"o","kind":"origin","route":["o""#;

/// The front of a text with many urgent senders, of whom there is none.
const URGENT: &str = r#"{"format":2,"last_tick":0,"actors":[],"urgent":["o""#;

fn long_text(
    alloc: Global,
    front: &str,
    more: &str,
    count: usize,
    back: &str,
) -> Result<String, Fail> {
    let mut text = String::from_str(alloc, front)?;
    text.push_str(more.repeat(alloc, count)?.as_str())?;
    text.push_str(back)?;
    Ok(text)
}

/// A route has 1 to 32 names, and there are at most 64 urgent senders. An element that is no text
/// comes before their number.
#[test]
fn long_lists_are_refused(rt: HostRuntime) -> Result<(), Fail> {
    for (front, count, back, cause) in [
        (ROUTE, 31, r#"]}]}"#, Missing(1, "period")),
        (ROUTE, 32, r#"]}]}"#, OutOfRange(1, "route", 33)),
        (ROUTE, 39, r#",1]}]}"#, WrongType(1, "route")),
        (URGENT, 63, r#"]}"#, UnknownActor(0, "urgent")),
        (URGENT, 64, r#"]}"#, OutOfRange(0, "urgent", 65)),
        (URGENT, 64, r#",null]}"#, WrongType(0, "urgent")),
    ] {
        let text = long_text(rt.alloc(), front, r#","o""#, count, back)?;
        refuses(&rt, text.as_str(), cause)?;
    }
    Ok(())
}

/// Scenarios, and the canonical texts of what they are upgraded to.
const UPGRADED: [(&str, &str); 3] = [
    (
        r#"{"format":1,"last_tick":4,"actors":[{"name":"c","kind":"clock","period":2,"count":2}]}"#,
        r#"{"actors":[{"count":2,"kind":"clock","name":"c","period":2}],"diasca_limit":1000,"format":2,"last_tick":4,"max_actors":10000,"results":["+*"],"seed":0,"urgent":[]}"#,
    ),
    (
        "{\"format\":1,\"last_tick\":4,\"results\":[],\"actors\":[{\"name\":\"o\",\
            \"kind\":\"origin\",\"period\":7,\"count\":100000,\"route\":[\"r\",\"s\",\"r\"]},\
            {\"name\":\"r\",\"kind\":\"road\",\"room\":1,\"length\":1000000},{\"name\":\"s\",\
            \"kind\":\"road\",\"room\":1000000,\"length\":1}]}",
        "{\"actors\":[{\"count\":100000,\"kind\":\"origin\",\"name\":\"o\",\"period\":7,\
            \"route\":[\"r\",\"s\",\"r\"]},{\"kind\":\"road\",\"length\":1000000,\"name\":\"r\",\
            \"room\":1},{\"kind\":\"road\",\"length\":1,\"name\":\"s\",\"room\":1000000}],\
            \"diasca_limit\":1000,\"format\":2,\"last_tick\":4,\"max_actors\":10000,\"results\":[],\
            \"seed\":0,\"urgent\":[]}",
    ),
    (
        "{\"format\":2,\"urgent\":[\"b\",\"a\",\"b\"],\"max_actors\":1000000,\"last_tick\":4,\
            \"results\":[],\"actors\":[{\"name\":\"a\",\"kind\":\"fuse\",\"at\":0,\"code\":1},\
            {\"name\":\"x\",\"kind\":\"fuse\",\"at\":0,\"code\":1},{\"name\":\"b\",\"kind\":\"fuse\",\
            \"at\":0,\"code\":1}]}",
        "{\"actors\":[{\"at\":0,\"code\":1,\"kind\":\"fuse\",\"name\":\"a\"},{\"at\":0,\"code\":1,\
            \"kind\":\"fuse\",\"name\":\"x\"},{\"at\":0,\"code\":1,\"kind\":\"fuse\",\"name\":\"b\"}],\
            \"diasca_limit\":1000,\"format\":2,\"last_tick\":4,\"max_actors\":1000000,\"results\":[],\
            \"seed\":0,\"urgent\":[\"a\",\"b\"]}",
    ),
];

/// The canonical text of what a scenario is upgraded to.
fn upgraded(alloc: Global, text: &str) -> Result<Items<u8>, Fail> {
    let scenario = Scenario::read(alloc, text.as_bytes())?;
    Ok(scenario.upgrade().print(alloc)?)
}

#[test]
fn an_upgraded_scenario_is_one_of_format_2(rt: HostRuntime) -> Result<(), Fail> {
    for &(text, canonical) in &UPGRADED {
        let came = upgraded(rt.alloc(), text)?;
        assert!(rt; came.as_slice() == canonical.as_bytes(), "{text}");
    }
    Ok(())
}

/// What one group is generated to: it leads to itself.
const ONE_GROUP: &str =
    "{\"actors\":[{\"close_at\":0,\"kind\":\"machine\",\"name\":\"m_0\",\"price\":2,\"stock\":20},\
        {\"kind\":\"road\",\"length\":3,\"name\":\"a_0\",\"room\":2},{\"kind\":\"road\",\"length\":2,\
        \"name\":\"b_0\",\"room\":1},{\"count\":5,\"kind\":\"origin\",\"name\":\"o_0\",\"period\":7,\
        \"route\":[\"a_0\",\"b_0\",\"a_0\"]},{\"kind\":\"customer\",\"machine\":\"m_0\",\"money\":100,\
        \"name\":\"c_0\",\"offer\":2,\"period\":10},{\"kind\":\"customer\",\"machine\":\"m_0\",\
        \"money\":100,\"name\":\"d_0\",\"offer\":3,\"period\":10},{\"high\":20,\
        \"kind\":\"random_customer\",\"low\":1,\"machine\":\"m_0\",\"money\":60,\"name\":\"e_0\",\
        \"offer\":2},{\"high\":15,\"kind\":\"random_customer\",\"low\":5,\"machine\":\"m_0\",\
        \"money\":60,\"name\":\"f_0\",\"offer\":5},{\"at\":40,\"cans\":10,\"kind\":\"depot\",\
        \"machine\":\"m_0\",\"name\":\"w_0\",\"trucks\":2},{\"count\":4,\"kind\":\"clock\",\
        \"name\":\"k_0\",\"period\":25}],\"diasca_limit\":1000,\"format\":1,\"last_tick\":100,\
        \"max_actors\":200000,\"results\":[\"+*.trip\",\"+*.stock\",\"+*.cars\"],\"seed\":1}";

/// The canonical text of so many generated groups.
fn generated(alloc: Global, groups: u32) -> Result<Items<u8>, Fail> {
    if groups < 1 || groups > 10_000 {
        return Err(Fail::from("no groups"));
    }
    let scenario = Scenario::generate(alloc, groups)?;
    Ok(scenario.print(alloc)?)
}

#[test]
fn one_group_is_generated(rt: HostRuntime) -> Result<(), Fail> {
    let text = generated(rt.alloc(), 1)?;
    assert!(rt; text.as_slice() == ONE_GROUP.as_bytes());
    Ok(())
}

/// Some of what twelve groups are generated to: the last leads to the first, and a road's length goes on anew
/// after five.
const TWELVE_GROUPS: [&str; 3] = [
    r#"{"kind":"road","length":4,"name":"a_11","room":2}"#,
    r#""name":"o_11","period":7,"route":["a_11","b_11","a_0"]}"#,
    r#"{"kind":"customer","machine":"m_0","money":100,"name":"d_11","offer":3,"period":10}"#,
];

#[test]
fn the_last_group_leads_to_the_first(rt: HostRuntime) -> Result<(), Fail> {
    let bytes = generated(rt.alloc(), 12)?;
    let text = String::from_utf8_lossy(rt.alloc(), bytes.as_slice())?;
    let actors = text.matches(r#""name":"#).count();
    assert!(rt; actors == 120 && TWELVE_GROUPS.iter().all(|part| text.contains(*part)));
    Ok(())
}

/// Texts that are no scenario, and what is said of them.
const LINES: [(&str, &str); 12] = [
    (r#"{"#, "not JSON"),
    (r#"{"format":1}"#, "missing last_tick"),
    (r#"{"format":"1"}"#, "wrong type format"),
    (
        r#"{"format":1,"seed":-9223372036854775808}"#,
        "out of range seed -9223372036854775808",
    ),
    (
        r#"{"format":1,"last_tick":4,"actors":[{"name":"b-c"}]}"#,
        "bad name of actor 1",
    ),
    (
        r#"{"format":1,"last_tick":4,"actors":[{"name":"c","kind":"clock","period":2,"count":2},{"name":"c","kind":"zeta"}]}"#,
        "name twice c",
    ),
    (
        r#"{"format":1,"last_tick":4,"actors":[{"name":"a","kind":"vehicle"}]}"#,
        "unknown kind of actor 1",
    ),
    (
        "{\"format\":1,\"z~ \u{e9}\u{7f}\":1}",
        "unknown field z~ ???",
    ),
    (
        r#"{"format":1,"last_tick":4,"actors":[{"name":"c","kind":"clock","period":2,"count":2,"":0}]}"#,
        "unknown field actor 1",
    ),
    (
        r#"{"format":1,"last_tick":4,"actors":[{"name":"b","kind":"ball","peer":"y","at":1,"hits":1}]}"#,
        "unknown actor actor 1 peer",
    ),
    (
        r#"{"format":1,"last_tick":4,"results":["+*","x"],"actors":[]}"#,
        "bad rule 2",
    ),
    (
        r#"{"format":1,"last_tick":4,"max_actors":1,"actors":[1,2]}"#,
        "too many actors 2",
    ),
];

/// What is said of a text that is no scenario.
fn said_of(alloc: Global, text: &str) -> Result<String, Fail> {
    let read = Scenario::read(alloc, text.as_bytes());
    match &read {
        Err(ScenarioFault::Refused(refusal)) => Ok(refusal.to_string(alloc)?),
        _ => Err(Fail::from("not refused")),
    }
}

#[test]
fn a_refusal_says_what_is_wrong(rt: HostRuntime) -> Result<(), Fail> {
    for &(text, line) in &LINES {
        assert_eq!(rt; said_of(rt.alloc(), text)?.as_str(), line);
    }
    Ok(())
}
