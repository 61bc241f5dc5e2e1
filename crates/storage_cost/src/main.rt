//! What the structures of the storage cost: `storage_cost WHAT WIDTH COUNT TIMES` does the same work so
//! many times and prints a number that depends on the order in which the structure gave what it holds.
//! `bench/storage` times it.
//!
//! - `sorted`, `wheel` and `tree` let WIDTH actors ask for a tick, and COUNT of them act at theirs and ask for
//!   one of the 16 ticks after it: an agenda in a sorted vector, one in a wheel, and a set of pairs.
//!   `sorted_far`, `wheel_far` and `tree_far` do so where nearly each actor has a tick of its own.
//! - `store` puts COUNT letters to WIDTH recipients into a store of letters and drains each recipient;
//!   `sort` puts them into a vector and sorts it by recipient.
//! - `merge` merges WIDTH buffers of COUNT rows together; `rows` puts the rows into a vector and sorts it.
#![tactic(auto)]

ghost use Rattle.std.specs.Prelude.{◌<◌, IfSome};

mod agendas;
mod letters;
mod numbers;
mod rows;

use agenda::SortedAgenda;
use agenda_wheel::WheelAgenda;
use sim_base::Memory;
use std::alloc::Global;
use std::env;
use std::env::Env;
use std::process::ExitCode;

/// How far ahead an actor asks: where many ask for one tick, and where nearly each has a tick of its own.
#[derive(Clone, Copy, Debug, PartialEq, Eq)]
enum Ahead {
    Near,
    Far,
}

impl Ahead {
    /// The most ticks ahead.
    fn ticks(self) -> u32
        ensures { 0 < result }
    {
        match self {
            Ahead::Near => 16,
            Ahead::Far => 1_000_000_000,
        }
    }
}

/// What is done over and over.
#[derive(Clone, Copy, Debug, PartialEq, Eq)]
enum Work {
    Sorted(Ahead),
    Wheel(Ahead),
    Tree(Ahead),
    Store,
    Sort,
    Merge,
    Rows,
}

impl Work {
    /// The work of this name.
    fn read(name: &str) -> Option<Work> {
        match name {
            "sorted" => Some(Work::Sorted(Ahead::Near)),
            "wheel" => Some(Work::Wheel(Ahead::Near)),
            "tree" => Some(Work::Tree(Ahead::Near)),
            "sorted_far" => Some(Work::Sorted(Ahead::Far)),
            "wheel_far" => Some(Work::Wheel(Ahead::Far)),
            "tree_far" => Some(Work::Tree(Ahead::Far)),
            "store" => Some(Work::Store),
            "sort" => Some(Work::Sort),
            "merge" => Some(Work::Merge),
            "rows" => Some(Work::Rows),
            _ => None,
        }
    }
}

/// The work, its width, how many items it has, and how often it is done.
#[derive(Clone, Copy)]
struct Asked {
    work: Work,
    width: u32,
    count: u32,
    times: u32,
}

fn read_words(rt: &(impl Env + AllocGlobal)) -> Option<Asked>
    ensures { IfSome result (λ asked. 0 < asked.width) }
{
    let mut words = env::args(rt).ok()?.skip(1);
    let work = Work::read(words.next()?.as_str())?;
    let width = words.next()?.parse().ok()?;
    let count = words.next()?.parse().ok()?;
    let times = words.next()?.parse().ok()?;
    if width == 0 {
        return None;
    }
    Some(Asked {
        work,
        width,
        count,
        times,
    })
}

fn done(alloc: Global, asked: &Asked) -> Result<u64, Memory>
    requires { 0 < asked.now.width }
{
    let Asked {
        work,
        width,
        count,
        times,
    } = *asked;
    let moves = u64::from(count) * u64::from(times);
    match work {
        Work::Sorted(ahead) => agendas::acted::<SortedAgenda>(alloc, width, ahead.ticks(), moves),
        Work::Wheel(ahead) => agendas::acted::<WheelAgenda>(alloc, width, ahead.ticks(), moves),
        Work::Tree(ahead) => agendas::acted_in_tree(alloc, width, ahead.ticks(), moves),
        Work::Store => letters::stored(alloc, width, count, times),
        Work::Sort => letters::sorted(alloc, width, count, times),
        Work::Merge => rows::merged(alloc, width, count, times),
        Work::Rows => rows::sorted(alloc, width, count, times),
    }
}

fn main(rt: HostRuntime) -> ExitCode {
    let Some(asked) = read_words(&rt) else {
        return ExitCode::from(2);
    };
    match done(rt.alloc(), &asked) {
        Ok(number) if println!(rt; "{number}").is_ok() => ExitCode::SUCCESS,
        _ => ExitCode::FAILURE,
    }
}
