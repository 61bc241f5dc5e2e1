use result_store::{Rules, text};
use sim_base::{ActorId, Ending, Items, Moment, Name, Row};
use sim_model::{Kind, Member, Results, SharedKind};
use std::alloc::Global;
use std::test::Fail;

fn rules_of(alloc: Global, texts: &[&str]) -> Result<Rules, Fail> {
    let mut all = Vec::new(alloc);
    for text in texts {
        all.push(Items::of(text.as_bytes().to_vec(alloc)?))?;
    }
    if all.len() > 256 {
        Err("too many rules")?;
    }
    Ok(Rules::read(alloc, &all)?)
}

/// Rows of two actors, among them some of an actor and of a probe that aren't there: tick, diasca, actor,
/// probe and value.
const ROWS: [(u64, u32, u32, u32, i64); 7] = [
    (0, 0, 5, 0, -7),
    (1, 0, 2, 1, 3),
    (1, 0, 2, 0, 4),
    (1, 0, 5, 0, 8),
    (2, 1, 2, 1, i64::MIN),
    (2, 1, 2, 2, 1),
    (2, 1, 9, 0, 1),
];

/// The actors and their probes; one of them stands twice.
const CAST: [(u32, &str, &[&str]); 4] = [
    (5, "b", &["x"]),
    (2, "a", &["x", "y"]),
    (5, "c", &["y", "x"]),
    (3, "d", &["x"]),
];

fn member(alloc: Global, id: u32, name: &str, probes: &[&str]) -> Result<Member, Fail> {
    let mut names = Vec::new(alloc);
    for probe in probes {
        names.push(Name::read(probe.as_bytes()).ok_or("a name")?)?;
    }
    Ok(Member {
        id: ActorId(id),
        name: Name::read(name.as_bytes()).ok_or("a name")?,
        kind: SharedKind::new(
            alloc,
            Kind {
                name: Name::word("kind"),
                probes: Items::of(names),
            },
        )?,
    })
}

fn rows(alloc: Global) -> Result<Vec<Row>, Fail> {
    let mut rows = Vec::new(alloc);
    for &(tick, diasca, actor, probe, value) in &ROWS {
        rows.push(Row {
            at: Moment { tick, diasca },
            actor: ActorId(actor),
            probe,
            value,
        })?;
    }
    Ok(rows)
}

fn results(alloc: Global, ending: Ending, dead_letters: u64) -> Result<Results, Fail> {
    let mut cast = Vec::new(alloc);
    for &(id, name, probes) in &CAST {
        cast.push(member(alloc, id, name, probes)?)?;
    }
    Ok(Results {
        rows: Items::of(rows(alloc)?),
        cast: Items::of(cast),
        ending,
        last: Moment { tick: 2, diasca: 1 },
        dead_letters,
    })
}

const FAULT: Ending = Ending::Fault {
    actor: ActorId(2),
    code: 7,
};

/// Rules, an ending and a number of dead letters, and the lines behind the first.
const TEXTS: [(&[&str], Ending, u64, &str); 6] = [
    (
        &["+*"],
        FAULT,
        3,
        "0,0,b,x,-7\n1,0,b,x,8\n1,0,a,x,4\n1,0,a,y,3\n2,1,a,y,-9223372036854775808\n0,0,c,y,-7\n1,0,c,y,8\nend,2,1,fault:2:7,3\n",
    ),
    (
        &["+*", "-a.*", "+a.y", "-c.y"],
        FAULT,
        3,
        "0,0,b,x,-7\n1,0,b,x,8\n1,0,a,y,3\n2,1,a,y,-9223372036854775808\nend,2,1,fault:2:7,3\n",
    ),
    (
        &[],
        FAULT,
        u64::MAX,
        "end,2,1,fault:2:7,18446744073709551615\n",
    ),
    (&[], Ending::Exhausted, 0, "end,2,1,exhausted,0\n"),
    (&[], Ending::TickLimit, 0, "end,2,1,tick_limit,0\n"),
    (&[], Ending::DiascaLimit, 0, "end,2,1,diasca_limit,0\n"),
];

/// The text of a run that ended so, with the series that these rules keep.
fn text_of(
    alloc: Global,
    rules: &[&str],
    ending: Ending,
    dead_letters: u64,
) -> Result<Items<u8>, Fail> {
    let rules = rules_of(alloc, rules)?;
    Ok(text(alloc, &results(alloc, ending, dead_letters)?, &rules)?)
}

#[test]
fn a_text_has_the_kept_series_of_each_actor(rt: HostRuntime) -> Result<(), Fail> {
    for &(rules, ending, dead_letters, lines) in &TEXTS {
        let text = text_of(rt.alloc(), rules, ending, dead_letters)?;
        let expected = format!(in rt.alloc(); "tick,diasca,actor,probe,value\n{lines}")?;
        assert!(rt; text.as_slice() == expected.as_bytes(), "{lines}");
    }
    Ok(())
}
