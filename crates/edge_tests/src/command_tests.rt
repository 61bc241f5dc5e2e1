use sim_base::{BytesIn, BytesOut, Items, OpenGate, Source, Status, Taken};
use sim_top::simulate;
use std::alloc::Global;
use std::process::Abort;
use std::test::Fail;
use std::thread::Threads;

/// A machine and two customers.
const TWO_CUSTOMERS: &str =
    "{\"format\":1,\"seed\":7,\"last_tick\":1,\"results\":[\"+*.cans\"],\"actors\":[{\"name\":\"m\",\
        \"kind\":\"machine\",\"stock\":1,\"price\":3,\"close_at\":0},{\"name\":\"ann\",\
        \"kind\":\"customer\",\"machine\":\"m\",\"period\":1,\"money\":5,\"offer\":3},{\"name\":\"bob\",\
        \"kind\":\"customer\",\"machine\":\"m\",\"period\":1,\"money\":5,\"offer\":3}]}";

/// The same in format 2, with an urgent sender.
const URGENT: &str =
    "{\"format\":2,\"seed\":7,\"last_tick\":1,\"results\":[\"+*.cans\"],\"urgent\":[\"bob\"],\
        \"actors\":[{\"name\":\"m\",\"kind\":\"machine\",\"stock\":1,\"price\":3,\"close_at\":0},\
        {\"name\":\"ann\",\"kind\":\"customer\",\"machine\":\"m\",\"period\":1,\"money\":5,\"offer\":3},\
        {\"name\":\"bob\",\"kind\":\"customer\",\"machine\":\"m\",\"period\":1,\"money\":5,\
        \"offer\":3}]}";

/// Words, the scenario, the status, and what is written to the output and the error sink.
type Case<'a> = (&'a [&'a str], &'a str, Status, &'a str, &'a str);

fn bytes_of(alloc: Global, text: &str) -> Result<Items<u8>, Fail> {
    Ok(Items::of(text.as_bytes().to_vec(alloc)?))
}

fn words_of(alloc: Global, texts: &[&str]) -> Result<Vec<Items<u8>>, Fail> {
    let mut words = Vec::new(alloc);
    for text in texts {
        words.push(bytes_of(alloc, text)?)?;
    }
    Ok(words)
}

/// How many bytes are left in the input, of at most 16.
fn left(input: &mut BytesIn) -> usize {
    match input.take(&mut [0; 16]) {
        Taken::Bytes(count) => count,
        Taken::Failed => usize::MAX,
    }
}

/// The words come to the status and the texts of the case, close no round, and leave so much of the
/// scenario.
fn comes_to<R: Abort + AllocGlobal + Sync + Threads>(
    rt: &R,
    case: &Case<'_>,
    rest: usize,
) -> Result<(), Fail> {
    let alloc = rt.alloc();
    let (texts, scenario, status, output, line) = *case;
    let words = words_of(alloc, texts)?;
    let mut input = BytesIn::new(bytes_of(alloc, scenario)?, 4096, Items::new(alloc));
    let mut out = BytesOut::new(alloc, 4000, 4096, Items::new(alloc))?;
    let mut err = BytesOut::new(alloc, 4000, 4096, Items::new(alloc))?;
    let ran = simulate(
        rt,
        alloc,
        words.as_slice(),
        &mut input,
        &mut out,
        &mut err,
        &OpenGate,
    );
    assert_eq!(rt; ran.status, status, "{texts:?}");
    assert_eq!(rt; ran.rounds.numbers(), [0, 0, 0], "{texts:?}");
    assert_eq!(rt; out.as_slice(), output.as_bytes(), "{texts:?}");
    assert_eq!(rt; err.as_slice(), line.as_bytes(), "{texts:?}");
    assert_eq!(rt; left(&mut input), rest, "{texts:?}");
    Ok(())
}

/// Plans: each policy, loads that are counted, and trees of several levels.
const PLANS: [Case<'static>; 4] = [
    (
        &["plan"],
        TWO_CUSTOMERS,
        Status::Done,
        "actor,1,m,0\nactor,2,ann,0\nactor,3,bob,0\nnode,0,0,-\n",
        "",
    ),
    (
        &["plan", "--managers", "3", "--policy", "name"],
        TWO_CUSTOMERS,
        Status::Done,
        "actor,1,m,1\nactor,2,ann,2\nactor,3,bob,1\nnode,0,0,3\nnode,1,0,3\nnode,2,0,4\nnode,3,1,5\nnode,4,1,5\nnode,5,2,-\n",
        "",
    ),
    (
        &["plan", "--managers", "2", "--policy", "load"],
        URGENT,
        Status::Done,
        "actor,1,m,0\nactor,2,ann,1\nactor,3,bob,0\nnode,0,0,2\nnode,1,0,2\nnode,2,1,-\n",
        "",
    ),
    (
        &[
            "plan",
            "--managers",
            "5",
            "--fanout",
            "3",
            "--policy",
            "load",
            "--workers",
            "64",
        ],
        TWO_CUSTOMERS,
        Status::Done,
        "actor,1,m,0\nactor,2,ann,1\nactor,3,bob,2\nnode,0,0,5\nnode,1,0,5\nnode,2,0,5\nnode,3,0,6\nnode,4,0,6\nnode,5,1,7\nnode,6,1,7\nnode,7,2,-\n",
        "",
    ),
];

#[test]
fn plan_writes_the_managers_of_actors_and_their_tree(rt: HostRuntime) -> Result<(), Fail> {
    for case in &PLANS {
        comes_to(&rt, case, 0)?;
    }
    Ok(())
}

/// Upgrades, and what is refused.
const FORMATS: [Case<'static>; 4] = [
    (
        &["upgrade"],
        r#"{"format":1,"last_tick":4,"results":["+*"],"actors":[{"name":"c","kind":"clock","period":2,"count":2}]}"#,
        Status::Done,
        "{\"actors\":[{\"count\":2,\"kind\":\"clock\",\"name\":\"c\",\"period\":2}],\"diasca_limit\":1000,\"format\":2,\"last_tick\":4,\"max_actors\":10000,\"results\":[\"+*\"],\"seed\":0,\"urgent\":[]}\n",
        "",
    ),
    (
        &["upgrade"],
        r#"{"format":2,"last_tick":4,"urgent":["f"],"actors":[{"name":"f","kind":"fuse","at":0,"code":1}]}"#,
        Status::Done,
        "{\"actors\":[{\"at\":0,\"code\":1,\"kind\":\"fuse\",\"name\":\"f\"}],\"diasca_limit\":1000,\"format\":2,\"last_tick\":4,\"max_actors\":10000,\"results\":[\"+*\"],\"seed\":0,\"urgent\":[\"f\"]}\n",
        "",
    ),
    (
        &["upgrade"],
        r#"{"format":2,"last_tick":4,"urgent":["eve"],"actors":[]}"#,
        Status::ScenarioRefused,
        "",
        "scenario: unknown actor urgent\n",
    ),
    (
        &["plan"],
        r#"{"format":1,"last_tick":4,"urgent":[],"actors":[]}"#,
        Status::ScenarioRefused,
        "",
        "scenario: unknown field urgent\n",
    ),
];

#[test]
fn scenarios_are_upgraded(rt: HostRuntime) -> Result<(), Fail> {
    for case in &FORMATS {
        comes_to(&rt, case, 0)?;
    }
    Ok(())
}

/// An input that stays as it is.
const UNREAD_TEXT: &str = "not read";

/// Words that read nothing: a command, and refused words.
const UNREAD: [Case<'static>; 12] = [
    (
        &["--version"],
        UNREAD_TEXT,
        Status::Done,
        "buffersorrel 0.1.0\n",
        "",
    ),
    (
        &["gen"],
        UNREAD_TEXT,
        Status::WordsRefused,
        "",
        "words: 0: value missing\n",
    ),
    (
        &["gen", "0"],
        UNREAD_TEXT,
        Status::WordsRefused,
        "",
        "words: 1: out of range\n",
    ),
    (
        &["gen", "10001"],
        UNREAD_TEXT,
        Status::WordsRefused,
        "",
        "words: 1: out of range\n",
    ),
    (
        &["gen", "00000000001"],
        UNREAD_TEXT,
        Status::WordsRefused,
        "",
        "words: 1: not a number\n",
    ),
    (
        &["gen", "1", "1"],
        UNREAD_TEXT,
        Status::WordsRefused,
        "",
        "words: 2: unknown option\n",
    ),
    (
        &["gen", "1", "--fanout", "2", "--fanout", "2"],
        UNREAD_TEXT,
        Status::WordsRefused,
        "",
        "words: 4: option twice\n",
    ),
    (
        &["upgrade", "x"],
        UNREAD_TEXT,
        Status::WordsRefused,
        "",
        "words: 1: unknown option\n",
    ),
    (
        &["--version", "plan"],
        UNREAD_TEXT,
        Status::WordsRefused,
        "",
        "words: 1: unknown option\n",
    ),
    (
        &["--help", "run"],
        UNREAD_TEXT,
        Status::WordsRefused,
        "",
        "words: 1: unknown option\n",
    ),
    (
        &["live"],
        UNREAD_TEXT,
        Status::WordsRefused,
        "",
        "words: 0: unknown command\n",
    ),
    (
        &["plan", "--readers", "2"],
        UNREAD_TEXT,
        Status::WordsRefused,
        "",
        "words: 1: unknown option\n",
    ),
];

#[test]
fn what_reads_nothing_leaves_the_input(rt: HostRuntime) -> Result<(), Fail> {
    for case in &UNREAD {
        comes_to(&rt, case, UNREAD_TEXT.len())?;
    }
    Ok(())
}

/// Some of what the page of usage tells.
const PARTS: [&str; 6] = [
    "run",
    "gen N",
    "upgrade",
    "--workers",
    "1 to 64",
    "Exit codes",
];

/// The page of usage.
fn page_of<R: AllocGlobal + Sync + Threads>(rt: &R) -> Result<BytesOut, Fail> {
    let alloc = rt.alloc();
    let words = words_of(alloc, &["--help"])?;
    let mut input = BytesIn::new(Items::new(alloc), 1, Items::new(alloc));
    let mut out = BytesOut::new(alloc, 4000, 4096, Items::new(alloc))?;
    let mut err = BytesOut::new(alloc, 16, 4096, Items::new(alloc))?;
    let words = words.as_slice();
    match simulate(rt, alloc, words, &mut input, &mut out, &mut err, &OpenGate).status {
        Status::Done => Ok(out),
        _ => Err(Fail::from("no page")),
    }
}

/// Whether a text has all parts, and no line of more than 80 bytes.
fn is_page(text: &str) -> bool {
    PARTS.iter().all(|part| text.contains(*part)) && text.lines().all(|line| line.len() <= 80)
}

#[test]
fn help_is_a_page(rt: HostRuntime) -> Result<(), Fail> {
    let page = page_of(&rt)?;
    let text = str::from_utf8(page.as_slice());
    assert!(rt; text.is_ok_and(is_page));
    Ok(())
}
