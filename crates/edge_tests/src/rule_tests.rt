use result_store::{Rules, RulesFault};
use sim_base::{Items, Name};
use std::alloc::Global;
use std::test::Fail;

/// What these texts are as rules.
fn read(alloc: Global, texts: &[&str]) -> Result<Result<Rules, RulesFault>, Fail> {
    let mut all = Vec::new(alloc);
    for text in texts {
        all.push(Items::of(text.as_bytes().to_vec(alloc)?))?;
    }
    if all.len() > 256 {
        Err("too many rules")?;
    }
    Ok(Rules::read(alloc, &all))
}

/// Sixty-four stars.
const STARS: &str = "+****************************************************************";

/// Rules, and whether they keep the series of this probe of the actor `aab`: the last rule that
/// matches decides, and a series that none matches isn't kept.
const KEPT: [(&[&str], &str, bool); 22] = [
    (&["+aab.cans"], "cans", true),
    (&["+*"], "cans", true),
    (&["+a*b.cans"], "cans", true),
    (&["+aab.cans*"], "cans", true),
    (&["+*aab.cans"], "cans", true),
    (&["+a*.c*s"], "cans", true),
    (&["+*ab.*"], "cans", true),
    (&["+*b.can*s*"], "cans", true),
    (&[STARS], "cans", true),
    (&["+aab.can"], "cans", false),
    (&["+ab.cans"], "cans", false),
    (&["+aab*"], "cans", true),
    (&["+*aab"], "cans", false),
    (&["+aab.cans.*"], "cans", false),
    (&["+*x*"], "cans", false),
    (&["-*"], "cans", false),
    (&["+*.cans", "-aab.*", "+*.money"], "cans", false),
    (&["+*.cans", "-aab.*", "+*.money"], "money", true),
    (&["+*.cans", "-bob.*", "+*.money"], "cans", true),
    (&["+*.cans", "-bob.*", "+*.money"], "coins", false),
    (&["-*", "+a*"], "cans", true),
    (&[], "cans", false),
];

#[test]
fn the_last_rule_that_matches_decides(rt: HostRuntime) -> Result<(), Fail> {
    let actor = Name::read(b"aab").ok_or("a name")?;
    for &(texts, probe, kept) in &KEPT {
        let rules = read(rt.alloc(), texts)??;
        assert_eq!(rt; rules.keeps(&actor, probe), kept, "{texts:?}");
    }
    Ok(())
}

/// Texts of rules, and the number of the first that is none; 0 where all are.
const BAD: [(&[&str], u32); 12] = [
    (&["+a*", "x"], 2),
    (&["+a*", ""], 2),
    (&["+a*", "+", "+b"], 2),
    (&["+a*", "*", "+b"], 2),
    (&["+A", "+b"], 1),
    (&["+a b"], 1),
    (&["+a+"], 1),
    (&["+a*", "-b", "x", "y"], 3),
    (
        &["+aaaaaaaaaaaaaaaaaaaaaaaaaaaaaaaaaaaaaaaaaaaaaaaaaaaaaaaaaaaaaaaaa"],
        1,
    ),
    (
        &[
            STARS,
            "-*****************************************************************",
        ],
        2,
    ),
    (&[STARS], 0),
    (&["-refill-7.cans_0"], 0),
];

#[test]
fn the_first_text_that_is_no_rule_is_told(rt: HostRuntime) -> Result<(), Fail> {
    for &(texts, number) in &BAD {
        let told = match read(rt.alloc(), texts)? {
            Ok(_) => 0,
            Err(RulesFault::BadRule(number)) => number,
            Err(RulesFault::Memory) => Err("no memory")?,
        };
        assert_eq!(rt; told, number, "{texts:?}");
    }
    Ok(())
}
