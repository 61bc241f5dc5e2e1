//! What a moment costs: `round_cost FORM MANAGERS HANDS FIRST OTHER LETTERS TIMES` makes so many whole
//! moments over so many managers with so many hands, which act one after the other. So many actors are
//! scheduled at the first manager and at each other; each sends so many letters. It prints how many
//! moments were over. The form is `round`, or `plain` for a loop over arrays that counts the same
//! numbers.
#![tactic(auto)]

ghost use Rattle.std.specs.Prelude.{◌≤◌};

mod moments;
mod plain;

use manager_tree::Tree;
use moments::{close_one, scheduled_at};
use plain::is_over;
use sim_base::Memory;
use std::alloc::Global;
use std::{env, io};

// What is asked for.
#[derive(Drop)]
struct Asked {
    plain: bool,
    managers: u32,
    hands: u32,
    first: u32,
    other: u32,
    letters: u32,
    times: u32,
}

// The number that a word shows, or 1, brought into a range.
fn number(word: Option<String>, least: u32, most: u32) -> u32
    requires { least ≤ most }
    ensures { (least ≤ result) × (result ≤ most) }
{
    let number = match word {
        Some(text) => text.as_str().parse().unwrap_or(1),
        None => 1,
    };
    number.clamp(least, most)
}

// How many moments of the plain form were over.
fn count_plain(scheduled: &[u32], asked: &Asked) -> u32 {
    let mut over = 0u32;
    for _ in 0..asked.times {
        over = over.saturating_add(u32::from(is_over(scheduled, u64::from(asked.letters))));
    }
    over
}

// How many moments were over, before one that was not.
fn count(alloc: Global, asked: &Asked) -> Result<u32, Memory>
    requires managers { (1 ≤ asked.now.managers) × (asked.now.managers ≤ 16) }
    requires hands { (1 ≤ asked.now.hands) × (asked.now.hands ≤ 64) }
    requires first { (1 ≤ asked.now.first) × (asked.now.first ≤ 1000000) }
    requires other { asked.now.other ≤ 1000000 }
    requires letters { asked.now.letters ≤ 1024 }
{
    let tree = Tree::of(alloc, asked.managers, 2)?;
    let scheduled = scheduled_at(alloc, &tree, asked.first, asked.other)?;
    let scheduled = scheduled.as_slice();
    if asked.plain {
        return Ok(count_plain(scheduled, asked));
    }
    let mut words = Vec::new(alloc);
    let mut over = 0u32;
    for _ in 0..asked.times {
        let Some(left) = close_one(alloc, words, &tree, scheduled, asked.hands, asked.letters)?
        else {
            return Ok(over);
        };
        words = left;
        over = over.saturating_add(1);
    }
    Ok(over)
}

fn main(rt: HostRuntime) -> io::Result<()> {
    let mut words = env::args(&rt)?;
    words.next();
    let plain = match words.next() {
        Some(form) => form.as_str() == "plain",
        None => false,
    };
    let asked = Asked {
        plain,
        managers: number(words.next(), 1, 16),
        hands: number(words.next(), 1, 64),
        first: number(words.next(), 1, 1_000_000),
        other: number(words.next(), 0, 1_000_000),
        letters: number(words.next(), 0, 1024),
        times: number(words.next(), 0, u32::MAX),
    };
    match count(rt.alloc(), &asked) {
        Ok(over) => println!(rt; "{over}"),
        Err(_) => println!(rt; "no memory"),
    }
}
