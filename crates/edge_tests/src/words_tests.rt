use placement::Policy;
use placement::Policy::{ByName, LeastLoaded, RoundRobin};
use sim_base::Items;
use sim_top::{Command, WordsCause, WordsRefusal, read_words};
use std::alloc::Global;
use std::test::Fail;

fn words_of(alloc: Global, texts: &[&str]) -> Result<Vec<Items<u8>>, Fail> {
    let mut words = Vec::new(alloc);
    for text in texts {
        words.push(Items::of(text.as_bytes().to_vec(alloc)?))?;
    }
    Ok(words)
}

/// Words, whether the call is the one that may wait, and the order that they give: its command, its
/// workers, managers, fan-out and readers, and its policy.
const ORDERS: [(&[&str], bool, Command, [u32; 4], Policy); 12] = [
    (&["run"], false, Command::Run, [1, 1, 2, 2], RoundRobin),
    (
        &["run", "--policy", "round", "--fanout", "8"],
        false,
        Command::Run,
        [1, 1, 8, 2],
        RoundRobin,
    ),
    (
        &[
            "run",
            "--managers",
            "0016",
            "--workers",
            "64",
            "--policy",
            "load",
            "--fanout",
            "2",
        ],
        false,
        Command::Run,
        [64, 16, 2, 2],
        LeastLoaded,
    ),
    (
        &["plan", "--policy", "name", "--managers", "0000000003"],
        false,
        Command::Plan,
        [1, 3, 2, 2],
        ByName,
    ),
    (&["check"], false, Command::Check, [1, 1, 2, 2], RoundRobin),
    (
        &["gen", "1"],
        false,
        Command::Gen(1),
        [1, 1, 2, 2],
        RoundRobin,
    ),
    (
        &["gen", "0000010000", "--fanout", "5"],
        false,
        Command::Gen(10_000),
        [1, 1, 5, 2],
        RoundRobin,
    ),
    (
        &["upgrade"],
        false,
        Command::Upgrade,
        [1, 1, 2, 2],
        RoundRobin,
    ),
    (&["--help"], false, Command::Help, [1, 1, 2, 2], RoundRobin),
    (
        &["--version"],
        false,
        Command::Version,
        [1, 1, 2, 2],
        RoundRobin,
    ),
    (&["live"], true, Command::Live, [1, 1, 2, 2], RoundRobin),
    (
        &["live", "--readers", "8", "--workers", "3", "--fanout", "4"],
        true,
        Command::Live,
        [3, 1, 4, 8],
        RoundRobin,
    ),
];

#[test]
fn words_give_their_order(rt: HostRuntime) -> Result<(), Fail> {
    for &(texts, live, command, numbers, policy) in &ORDERS {
        let words = words_of(rt.alloc(), texts)?;
        let Ok(order) = read_words(words.as_slice(), live) else {
            return Err(Fail::from("no order"));
        };
        assert_eq!(rt; (order.command, order.plan.policy), (command, policy));
        let plan = order.plan;
        let found = [plan.workers, plan.managers, plan.fanout, order.readers];
        assert_eq!(rt; found, numbers);
    }
    Ok(())
}

use WordsCause::{
    BadNumber, NoCommand, NoValue, OutOfRange, Repeated, UnknownCommand, UnknownOption,
    UnknownPolicy,
};

/// Words that are refused by their command or by what may follow it, with the place and the cause, and
/// whether the call is the one that may wait.
const UNKNOWN: [(&[&str], bool, u64, WordsCause); 27] = [
    (&[], false, 0, NoCommand),
    (&[], true, 0, NoCommand),
    (&["walk", "run"], false, 0, UnknownCommand),
    (&["-h"], false, 0, UnknownCommand),
    (&[""], false, 0, UnknownCommand),
    (&["live"], false, 0, UnknownCommand),
    (&["run"], true, 0, UnknownCommand),
    (&["--help"], true, 0, UnknownCommand),
    (&["check", "x"], false, 1, UnknownOption),
    (&["upgrade", "x"], false, 1, UnknownOption),
    (&["gen", "1", "1"], false, 2, UnknownOption),
    (&["gen", "1"], true, 0, UnknownCommand),
    (&["check", "--workers", "2"], false, 1, UnknownOption),
    (&["--help", "run"], false, 1, UnknownOption),
    (&["--version", "--workers"], false, 1, UnknownOption),
    (&["run", "check"], false, 1, UnknownOption),
    (&["run", "--workers=2"], false, 1, UnknownOption),
    (&["run", "-w", "2"], false, 1, UnknownOption),
    (&["run", "--readers", "2"], false, 1, UnknownOption),
    (&["plan", "--readers", "2"], false, 1, UnknownOption),
    (&["plan", "--fanout", "3", "--"], false, 3, UnknownOption),
    (&["live", "--reader", "2"], true, 1, UnknownOption),
    (
        &["run", "--workers", "2", "--workers", "0"],
        false,
        3,
        Repeated,
    ),
    (&["run", "--policy", "name", "--policy"], false, 3, Repeated),
    (
        &["live", "--readers", "2", "--readers", "3"],
        true,
        3,
        Repeated,
    ),
    (&["live", "--readers"], true, 1, NoValue),
    (&["plan", "--managers"], false, 1, NoValue),
];

#[test]
fn unknown_words_are_refused(rt: HostRuntime) -> Result<(), Fail> {
    for &(texts, live, place, cause) in &UNKNOWN {
        let words = words_of(rt.alloc(), texts)?;
        let refusal = WordsRefusal {
            place,
            cause,
            value: 0,
        };
        assert_eq!(rt;
            read_words(words.as_slice(), live),
            Err(refusal),
            "{texts:?}"
        );
    }
    Ok(())
}

/// Words that are refused by a value, with the place and the cause, and the number that is out of range.
const REFUSED: [(&[&str], u64, WordsCause, u64); 26] = [
    (&["gen"], 0, NoValue, 0),
    (&["gen", "--fanout"], 1, BadNumber, 0),
    (&["gen", "0", "x"], 1, OutOfRange, 0),
    (&["gen", "10001"], 1, OutOfRange, 10_001),
    (&["gen", "3", "--fanout"], 2, NoValue, 0),
    (&["run", "--workers"], 1, NoValue, 0),
    (&["run", "--policy", "name", "--fanout"], 3, NoValue, 0),
    (&["run", "--workers", "x"], 2, BadNumber, 0),
    (&["run", "--workers", ""], 2, BadNumber, 0),
    (&["run", "--workers", "00000000001"], 2, BadNumber, 0),
    (&["run", "--managers", "+1"], 2, BadNumber, 0),
    (&["run", "--managers", "-1"], 2, BadNumber, 0),
    (&["run", "--managers", "1.0"], 2, BadNumber, 0),
    (&["run", "--fanout", "--managers"], 2, BadNumber, 0),
    (&["run", "--workers", "0"], 2, OutOfRange, 0),
    (&["run", "--workers", "65", "--bad"], 2, OutOfRange, 65),
    (&["run", "--managers", "0"], 2, OutOfRange, 0),
    (&["run", "--managers", "17"], 2, OutOfRange, 17),
    (&["run", "--managers", "0000000017"], 2, OutOfRange, 17),
    (&["run", "--fanout", "1"], 2, OutOfRange, 1),
    (&["run", "--fanout", "9"], 2, OutOfRange, 9),
    (
        &["run", "--fanout", "4294967298"],
        2,
        OutOfRange,
        4_294_967_298,
    ),
    (
        &["run", "--managers", "9999999999"],
        2,
        OutOfRange,
        9_999_999_999,
    ),
    (&["run", "--policy", "Name"], 2, UnknownPolicy, 0),
    (&["run", "--policy", ""], 2, UnknownPolicy, 0),
    (
        &["run", "--workers", "2", "--policy", "rounds"],
        4,
        UnknownPolicy,
        0,
    ),
];

#[test]
fn other_values_are_refused(rt: HostRuntime) -> Result<(), Fail> {
    for &(texts, place, cause, value) in &REFUSED {
        let words = words_of(rt.alloc(), texts)?;
        let refusal = WordsRefusal {
            place,
            cause,
            value,
        };
        assert_eq!(rt;
            read_words(words.as_slice(), false),
            Err(refusal),
            "{texts:?}"
        );
    }
    Ok(())
}

/// Words behind which a word that is no text is refused, and the cause.
const BEFORE_BYTES: [(&[&str], WordsCause); 5] = [
    (&[], UnknownCommand),
    (&["run"], UnknownOption),
    (&["gen"], BadNumber),
    (&["run", "--workers"], BadNumber),
    (&["run", "--policy"], UnknownPolicy),
];

/// A word that is no text is no command, no option and no number.
#[test]
fn words_are_bytes(rt: HostRuntime) -> Result<(), Fail> {
    for &(texts, cause) in &BEFORE_BYTES {
        let mut words = words_of(rt.alloc(), texts)?;
        words.push(Items::of(vec![in rt.alloc(); 0xff; 2]?))?;
        let refusal = WordsRefusal {
            place: texts.len() as u64,
            cause,
            value: 0,
        };
        assert_eq!(rt; read_words(words.as_slice(), false), Err(refusal));
    }
    Ok(())
}
