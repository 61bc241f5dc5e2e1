use crate::calls::{comes_to, runs_to};
use crate::rows::{PLANNED, ROADS, RUNS, Run, TWO_CLOCKS, TWO_FUSES};
use sim_base::Status;
use std::alloc::Global;
use std::process::Abort;
use std::test::Fail;
use std::thread::Threads;

#[test]
fn runs_give_their_text_under_each_plan(rt: HostRuntime) -> Result<(), Fail> {
    for run in &RUNS {
        runs_to(&rt, run)?;
    }
    for run in &ROADS {
        runs_to(&rt, run)?;
    }
    Ok(())
}

#[test]
fn a_plan_changes_no_byte(rt: HostRuntime) -> Result<(), Fail> {
    for words in &PLANNED {
        comes_to(&rt, words, &RUNS[0])?;
        comes_to(&rt, words, &TWO_CLOCKS)?;
        comes_to(&rt, words, &TWO_FUSES)?;
    }
    Ok(())
}

const POLICIES: [&str; 3] = ["round", "name", "load"];

/// Two customers who want the one can, by two workers and three managers: so many cans each of them gets.
fn cans_go_to<R: Abort + AllocGlobal + Sync + Threads>(
    rt: &R,
    head: &str,
    ann: i64,
    bob: i64,
) -> Result<(), Fail> {
    let alloc = rt.alloc();
    let scenario = format!(in alloc;
        r#"{{{head},"last_tick":1,"results":["+*.cans"],"actors":[
            {{"name":"m","kind":"machine","stock":1,"price":3,"close_at":0}},
            {{"name":"ann","kind":"customer","machine":"m","period":1,"money":5,"offer":3}},
            {{"name":"bob","kind":"customer","machine":"m","period":1,"money":5,"offer":3}}]}}"#
    )?;
    let text = format!(in alloc;
        "tick,diasca,actor,probe,value\n1,2,ann,cans,{ann}\n1,2,bob,cans,{bob}\nend,1,2,tick_limit,0\n"
    )?;
    let run = Run {
        scenario: scenario.as_str(),
        status: Status::Done,
        text: text.as_str(),
        rounds: [4, 8, 4],
    };
    comes_to(rt, &["run"], &run)?;
    for policy in &POLICIES {
        let words = [
            "run",
            "--workers",
            "2",
            "--managers",
            "3",
            "--policy",
            policy,
        ];
        comes_to(rt, &words, &run)?;
    }
    Ok(())
}

/// Formats, seeds and urgent senders, and how many cans each of two customers then gets: where none of them is
/// urgent the order of the keys decides.
const WHO_GETS_IT: [(&str, i64, i64); 11] = [
    (r#""format":1,"seed":0"#, 0, 1),
    (r#""format":1,"seed":5"#, 0, 1),
    (r#""format":1,"seed":7"#, 1, 0),
    (r#""format":1,"seed":8"#, 1, 0),
    (r#""format":1,"seed":9"#, 0, 1),
    (r#""format":2,"seed":7,"urgent":["m"]"#, 1, 0),
    (r#""format":2,"seed":7,"urgent":["ann"]"#, 1, 0),
    (r#""format":2,"seed":7,"urgent":["bob"]"#, 0, 1),
    (r#""format":2,"seed":9,"urgent":["m"]"#, 0, 1),
    (r#""format":2,"seed":9,"urgent":["ann"]"#, 1, 0),
    (r#""format":2,"seed":9,"urgent":["bob"]"#, 0, 1),
];

#[test]
fn the_seed_and_the_urgent_decide_who_gets_the_can(rt: HostRuntime) -> Result<(), Fail> {
    for &(head, ann, bob) in &WHO_GETS_IT {
        cans_go_to(&rt, head, ann, bob)?;
    }
    Ok(())
}

/// A machine and so many customers who all come at tick 1.
fn crowd(alloc: Global, customers: u32) -> Result<String, Fail> {
    let mut text = String::from_str(
        alloc,
        r#"{"format":1,"last_tick":1,"results":[],"actors":[{"name":"m","kind":"machine","stock":2000,"price":1,"close_at":0}"#,
    )?;
    for number in 0..customers {
        let customer = format!(in alloc;
            r#",{{"name":"c{number}","kind":"customer","machine":"m","period":1,"money":1,"offer":1}}"#
        )?;
        text.push_str(customer.as_str())?;
    }
    text.push_str("]}")?;
    Ok(text)
}

/// Crowds, and the status, the text and the rounds of their runs.
const CROWDS: [(u32, Status, &str, [u64; 3]); 2] = [
    (
        1024,
        Status::Done,
        "tick,diasca,actor,probe,value\nend,1,2,tick_limit,0\n",
        [4, 3074, 2048],
    ),
    (
        1025,
        Status::ActorFault,
        "tick,diasca,actor,probe,value\nend,1,1,fault:1:901,0\n",
        [3, 2052, 1025],
    ),
];

#[test]
fn a_machine_answers_1024_customers_and_no_more(rt: HostRuntime) -> Result<(), Fail> {
    for &(customers, status, text, rounds) in &CROWDS {
        let scenario = crowd(rt.alloc(), customers)?;
        let run = Run {
            scenario: scenario.as_str(),
            status,
            text,
            rounds,
        };
        runs_to(&rt, &run)?;
    }
    Ok(())
}
