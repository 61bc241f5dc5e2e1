//! Cases of the whole program: words, scenarios, and what they must come to. The expected texts are
//! another program's.
use sim_base::Status;

/// A scenario, and what a command must come to with it.
#[derive(Clone, Copy)]
pub(crate) struct Run<'a> {
    pub(crate) scenario: &'a str,
    pub(crate) status: Status,
    pub(crate) text: &'a str,
    /// How many rounds are closed, how many actors are scheduled in them, and how many letters posted.
    pub(crate) rounds: [u64; 3],
}

pub(crate) const ONE_CLOCK: &str =
    r#"{"format":1,"last_tick":4,"results":["+*"],"actors":[{"name":"c","kind":"clock","period":2,"count":2}]}"#;

/// Two depots whose refills have room for all but the last.
pub(crate) const TWO_DEPOTS: &str =
    r#"{"format":1,"last_tick":1,"max_actors":6,"results":["+*.trucks","+refill-*.cans","+m.stock"],"actors":[
        {"name":"m","kind":"machine","stock":0,"price":1,"close_at":0},
        {"name":"x","kind":"depot","machine":"m","at":1,"trucks":2,"cans":5},
        {"name":"y","kind":"depot","machine":"m","at":1,"trucks":2,"cans":7}]}"#;

/// Clocks, shops, balls, fuses and depots, and rules of all sorts.
pub(crate) const RUNS: [Run<'static>; 24] = [
    Run {
        scenario: ONE_CLOCK,
        status: Status::Done,
        text: "tick,diasca,actor,probe,value\n2,0,c,beats,1\n4,0,c,beats,2\nend,4,0,exhausted,0\n",
        rounds: [3, 3, 0],
    },
    Run {
        scenario: r#"{"format":1,"last_tick":3,"actors":[{"name":"c","kind":"clock","period":2,"count":2}]}"#,
        status: Status::Done,
        text: "tick,diasca,actor,probe,value\n2,0,c,beats,1\nend,2,0,tick_limit,0\n",
        rounds: [2, 2, 0],
    },
    Run {
        scenario: r#" {"actors" : [ ], "last_tick" : 4, "format" : 1} "#,
        status: Status::Done,
        text: "tick,diasca,actor,probe,value\nend,0,0,exhausted,0\n",
        rounds: [0, 0, 0],
    },
    Run {
        scenario: r#"{"actors":[{"name":"b","kind":"clock","period":3,"count":2},{"name":"a","kind":"clock","period":2,"count":3}],"format":1,"last_tick":6}"#,
        status: Status::Done,
        text: "tick,diasca,actor,probe,value\n3,0,b,beats,1\n6,0,b,beats,2\n2,0,a,beats,1\n4,0,a,beats,2\n6,0,a,beats,3\nend,6,0,exhausted,0\n",
        rounds: [5, 7, 0],
    },
    Run {
        scenario: r#"{"format":1,"last_tick":1000000000,"actors":[{"name":"a234567890_234567890_234567890_2","kind":"clock","period":1000000000,"count":9}]}"#,
        status: Status::Done,
        text: "tick,diasca,actor,probe,value\n1000000000,0,a234567890_234567890_234567890_2,beats,1\nend,1000000000,0,tick_limit,0\n",
        rounds: [2, 2, 0],
    },
    Run {
        scenario: r#"{"format":2,"format":1,"last_tick":0,"actors":[{"name":"a","kind":"clock","period":1,"count":0}]}"#,
        status: Status::Done,
        text: "tick,diasca,actor,probe,value\nend,0,0,exhausted,0\n",
        rounds: [1, 1, 0],
    },
    Run {
        scenario: r#"{"format":1,"last_tick":2,"results":["+a.*"],"actors":[{"name":"m","kind":"machine","stock":5,"price":1,"close_at":2},{"name":"a","kind":"customer","machine":"m","period":2,"money":4,"offer":1}]}"#,
        status: Status::Done,
        text: "tick,diasca,actor,probe,value\nend,2,0,tick_limit,1\n",
        rounds: [2, 4, 1],
    },
    Run {
        scenario: r#"{"format":1,"last_tick":2,"results":["+*"],"actors":[{"name":"m","kind":"machine","stock":5,"price":1,"close_at":2},{"name":"a","kind":"customer","machine":"m","period":2,"money":4,"offer":1}]}"#,
        status: Status::Done,
        text: "tick,diasca,actor,probe,value\n0,0,m,stock,5\n0,0,m,coins,0\nend,2,0,tick_limit,1\n",
        rounds: [2, 4, 1],
    },
    Run {
        scenario: r#"{"format":1,"last_tick":9,"diasca_limit":5,"results":["+*"],"actors":[{"name":"p","kind":"ball","peer":"q","at":1,"hits":9},{"name":"q","kind":"ball","peer":"p","at":1,"hits":0}]}"#,
        status: Status::DiascaLimit,
        text: "tick,diasca,actor,probe,value\n1,2,p,hits,1\n1,4,p,hits,2\n1,1,q,hits,1\n1,3,q,hits,2\nend,1,4,diasca_limit,0\n",
        rounds: [6, 7, 5],
    },
    Run {
        scenario: r#"{"format":1,"last_tick":9,"diasca_limit":5,"results":["+*"],"actors":[{"name":"p","kind":"ball","peer":"q","at":1,"hits":4},{"name":"q","kind":"ball","peer":"p","at":1,"hits":0}]}"#,
        status: Status::Done,
        text: "tick,diasca,actor,probe,value\n1,2,p,hits,1\n1,4,p,hits,2\n1,1,q,hits,1\n1,3,q,hits,2\nend,1,4,exhausted,0\n",
        rounds: [6, 7, 4],
    },
    Run {
        scenario: r#"{"format":1,"last_tick":9,"diasca_limit":2,"results":["+*"],"actors":[{"name":"p","kind":"ball","peer":"q","at":1,"hits":9},{"name":"q","kind":"ball","peer":"p","at":1,"hits":0}]}"#,
        status: Status::DiascaLimit,
        text: "tick,diasca,actor,probe,value\n1,1,q,hits,1\nend,1,1,diasca_limit,0\n",
        rounds: [3, 4, 2],
    },
    Run {
        scenario: r#"{"format":1,"last_tick":9,"diasca_limit":1,"results":["+*"],"actors":[{"name":"p","kind":"ball","peer":"q","at":1,"hits":9},{"name":"q","kind":"ball","peer":"p","at":1,"hits":0}]}"#,
        status: Status::DiascaLimit,
        text: "tick,diasca,actor,probe,value\nend,1,0,diasca_limit,0\n",
        rounds: [2, 3, 1],
    },
    Run {
        scenario: r#"{"format":1,"last_tick":9,"actors":[{"name":"a","kind":"fuse","at":1,"code":41},{"name":"b","kind":"fuse","at":1,"code":7},{"name":"c","kind":"clock","period":1,"count":1}]}"#,
        status: Status::ActorFault,
        text: "tick,diasca,actor,probe,value\nend,1,0,fault:1:41,0\n",
        rounds: [2, 6, 0],
    },
    Run {
        scenario: r#"{"format":1,"last_tick":1,"results":["+*.trucks","+refill-*.cans","+m.stock"],"actors":[
            {"name":"m","kind":"machine","stock":0,"price":1,"close_at":0},
            {"name":"x","kind":"depot","machine":"m","at":1,"trucks":2,"cans":5},
            {"name":"y","kind":"depot","machine":"m","at":1,"trucks":2,"cans":7}]}"#,
        status: Status::Done,
        text: "tick,diasca,actor,probe,value\n0,0,m,stock,0\n1,2,m,stock,24\n1,1,x,trucks,2\n1,1,y,trucks,2\n1,1,refill-4,cans,5\n1,1,refill-5,cans,5\n1,1,refill-6,cans,7\n1,1,refill-7,cans,7\nend,1,2,exhausted,0\n",
        rounds: [4, 12, 4],
    },
    Run {
        scenario: TWO_DEPOTS,
        status: Status::ActorFault,
        text: "tick,diasca,actor,probe,value\n0,0,m,stock,0\nend,1,0,fault:3:902,0\n",
        rounds: [2, 5, 0],
    },
    Run {
        scenario: r#"{"format":1,"seed":18446744073709551615,"last_tick":20,"results":["+r.*","+m.coins"],"actors":[
            {"name":"m","kind":"machine","stock":2,"price":2,"close_at":0},
            {"name":"r","kind":"random_customer","machine":"m","low":2,"high":9,"money":7,"offer":3}]}"#,
        status: Status::Done,
        text: "tick,diasca,actor,probe,value\n0,0,m,coins,0\n6,1,m,coins,2\n13,1,m,coins,4\n19,1,m,coins,4\n6,2,r,cans,1\n13,2,r,cans,2\n19,2,r,cans,2\n6,2,r,money,5\n13,2,r,money,3\n19,2,r,money,3\nend,19,2,tick_limit,0\n",
        rounds: [10, 11, 6],
    },
    Run {
        scenario: r#"{"format":1,"last_tick":3,"results":["+*"],"actors":[{"name":"r","kind":"refill","machine":"m","cans":4},{"name":"m","kind":"machine","stock":1,"price":2,"close_at":0}]}"#,
        status: Status::Done,
        text: "tick,diasca,actor,probe,value\n0,0,r,cans,4\n0,0,m,stock,1\n0,1,m,stock,5\n0,0,m,coins,0\n0,1,m,coins,0\nend,0,1,exhausted,0\n",
        rounds: [2, 3, 1],
    },
    Run {
        scenario: r#"{"format":1,"last_tick":3,"actors":[
            {"name":"r","kind":"random_customer","machine":"m","low":1,"high":2,"money":4,"offer":2},
            {"name":"m","kind":"machine","stock":0,"price":1,"close_at":0},
            {"name":"l","kind":"refill","machine":"m","cans":1}]}"#,
        status: Status::Done,
        text: "tick,diasca,actor,probe,value\n1,2,r,cans,1\n2,2,r,cans,1\n1,2,r,money,3\n2,2,r,money,3\n\
            0,0,m,stock,0\n0,1,m,stock,1\n1,1,m,stock,0\n2,1,m,stock,0\n0,0,m,coins,0\n0,1,m,coins,0\n\
            1,1,m,coins,1\n2,1,m,coins,1\n0,0,l,cans,1\nend,2,2,tick_limit,0\n",
        rounds: [8, 10, 5],
    },
    Run {
        scenario: r#"{"format":1,"last_tick":1,"results":[],"actors":[{"name":"c","kind":"clock","period":1,"count":1},{"name":"cd","kind":"clock","period":1,"count":1}]}"#,
        status: Status::Done,
        text: "tick,diasca,actor,probe,value\nend,1,0,exhausted,0\n",
        rounds: [2, 4, 0],
    },
    Run {
        scenario: r#"{"format":1,"last_tick":1,"results":["+*","-c.*"],"actors":[{"name":"c","kind":"clock","period":1,"count":1},{"name":"cd","kind":"clock","period":1,"count":1}]}"#,
        status: Status::Done,
        text: "tick,diasca,actor,probe,value\n1,0,cd,beats,1\nend,1,0,exhausted,0\n",
        rounds: [2, 4, 0],
    },
    Run {
        scenario: r#"{"format":1,"last_tick":1,"results":["-c.*","+*"],"actors":[{"name":"c","kind":"clock","period":1,"count":1},{"name":"cd","kind":"clock","period":1,"count":1}]}"#,
        status: Status::Done,
        text: "tick,diasca,actor,probe,value\n1,0,c,beats,1\n1,0,cd,beats,1\nend,1,0,exhausted,0\n",
        rounds: [2, 4, 0],
    },
    Run {
        scenario: r#"{"format":1,"last_tick":1,"results":["+c*.beats"],"actors":[{"name":"c","kind":"clock","period":1,"count":1},{"name":"cd","kind":"clock","period":1,"count":1}]}"#,
        status: Status::Done,
        text: "tick,diasca,actor,probe,value\n1,0,c,beats,1\n1,0,cd,beats,1\nend,1,0,exhausted,0\n",
        rounds: [2, 4, 0],
    },
    Run {
        scenario: r#"{"format":1,"last_tick":1,"results":["+c*d*.*beats*"],"actors":[{"name":"c","kind":"clock","period":1,"count":1},{"name":"cd","kind":"clock","period":1,"count":1}]}"#,
        status: Status::Done,
        text: "tick,diasca,actor,probe,value\n1,0,cd,beats,1\nend,1,0,exhausted,0\n",
        rounds: [2, 4, 0],
    },
    Run {
        scenario: r#"{"format":1,"last_tick":1,"results":["+c","+beats","+c.beat","+.beats"],"actors":[{"name":"c","kind":"clock","period":1,"count":1},{"name":"cd","kind":"clock","period":1,"count":1}]}"#,
        status: Status::Done,
        text: "tick,diasca,actor,probe,value\nend,1,0,exhausted,0\n",
        rounds: [2, 4, 0],
    },
];

/// Texts that are no scenario, and the line that tells why: each form of a line, and what is printed of
/// a field's name.
pub(crate) const REFUSED: [(&str, &str); 28] = [
    (r#"{"format":1,"#, "scenario: not JSON\n"),
    ("", "scenario: not JSON\n"),
    ("[]", "scenario: wrong type scenario\n"),
    ("{}", "scenario: missing format\n"),
    (r#"{"format":1,"zeta":1}"#, "scenario: unknown field zeta\n"),
    (r#"{"":1,"format":1}"#, "scenario: unknown field \n"),
    (
        "{\"caf\u{e9}\u{7f}~ \":1}",
        "scenario: unknown field caf???~ \n",
    ),
    (r#"{"\u0000\n":1}"#, "scenario: unknown field ??\n"),
    (
        r#"{"aaaaaaaaaaaaaaaaaaaaaaaaaaaaaaaaaaaaaaaaaaaaaaaaaaaaaaaaaaaaaaaé":1}"#,
        "scenario: unknown field aaaaaaaaaaaaaaaaaaaaaaaaaaaaaaaaaaaaaaaaaaaaaaaaaaaaaaaaaaaaaaa?\n",
    ),
    (
        r#"{"aaaaaaaaaaaaaaaaaaaaaaaaaaaaaaaaaaaaaaaaaaaaaaaaaaaaaaaaaaaaaaaab":1}"#,
        "scenario: unknown field aaaaaaaaaaaaaaaaaaaaaaaaaaaaaaaaaaaaaaaaaaaaaaaaaaaaaaaaaaaaaaaa\n",
    ),
    (r#"{"format":true}"#, "scenario: wrong type format\n"),
    (r#"{"format":3}"#, "scenario: out of range format 3\n"),
    (
        r#"{"format":1,"seed":-9223372036854775808}"#,
        "scenario: out of range seed -9223372036854775808\n",
    ),
    (
        r#"{"format":1,"last_tick":4,"results":["+a*","x"],"actors":[]}"#,
        "scenario: bad rule 2\n",
    ),
    (
        r#"{"format":1,"last_tick":4,"max_actors":1,"actors":[1,2,3]}"#,
        "scenario: too many actors 3\n",
    ),
    (
        r#"{"format":1,"last_tick":4,"actors":[[]]}"#,
        "scenario: wrong type actor 1\n",
    ),
    (
        r#"{"format":1,"last_tick":4,"actors":[{"kind":"clock"}]}"#,
        "scenario: missing actor 1 name\n",
    ),
    (
        r#"{"format":1,"last_tick":4,"actors":[{"name":"b-c"}]}"#,
        "scenario: bad name of actor 1\n",
    ),
    (
        r#"{"format":1,"last_tick":4,"actors":[{"name":"a","kind":"clock","period":1,"count":1},{"name":"a","kind":"clock","period":1,"count":1},{"name":"b-c","kind":"clock","period":1,"count":1}]}"#,
        "scenario: name twice a\n",
    ),
    (
        r#"{"format":1,"last_tick":4,"actors":[{"name":"a","kind":"Clock"}]}"#,
        "scenario: unknown kind of actor 1\n",
    ),
    (
        r#"{"format":1,"last_tick":4,"actors":[{"name":"c","kind":"clock","period":2,"count":2,"":0}]}"#,
        "scenario: unknown field actor 1\n",
    ),
    (
        r#"{"format":1,"last_tick":4,"actors":[{"name":"c","kind":"clock","period":2,"count":2,"peer":"c","beats":0}]}"#,
        "scenario: unknown field actor 1 beats\n",
    ),
    (
        r#"{"format":1,"last_tick":4,"actors":[{"name":"c","kind":"clock","period":0,"count":2}]}"#,
        "scenario: out of range actor 1 period 0\n",
    ),
    (
        r#"{"format":1,"last_tick":4,"actors":[{"name":"c","kind":"clock","period":-1,"count":2}]}"#,
        "scenario: out of range actor 1 period -1\n",
    ),
    (
        r#"{"format":1,"last_tick":4,"actors":[{"name":"c","kind":"clock","period":1.5,"count":2}]}"#,
        "scenario: wrong type actor 1 period\n",
    ),
    (
        r#"{"format":1,"last_tick":9,"diasca_limit":5,"results":["+*"],"actors":[{"name":"p","kind":"ball","peer":"z","at":1,"hits":9},{"name":"q","kind":"ball","peer":"p","at":1,"hits":0}]}"#,
        "scenario: unknown actor actor 1 peer\n",
    ),
    (
        r#"{"format":1,"last_tick":9,"diasca_limit":5,"results":["+*"],"actors":[{"name":"p","kind":"ball","peer":"q","at":1,"hits":9},{"name":"q","kind":"ball","peer":"","at":1,"hits":0}]}"#,
        "scenario: unknown actor actor 2 peer\n",
    ),
    (
        r#"{"format":1,"last_tick":4,"actors":[{"name":"a","kind":"random_customer","machine":"a","low":9,"high":8,"money":0,"offer":0}]}"#,
        "scenario: out of range actor 1 high 8\n",
    ),
];

/// A scenario and its canonical text.
pub(crate) const CHECKED: (&str, &str) = (
    ONE_CLOCK,
    r#"{"actors":[{"count":2,"kind":"clock","name":"c","period":2}],"diasca_limit":1000,"format":1,"last_tick":4,"max_actors":10000,"results":["+*"],"seed":0}"#,
);

/// One road for one car and for two, and three roads with a jam, of which a sender is urgent.
pub(crate) const ROADS: [Run<'static>; 3] = [
    Run {
        scenario: r#"{"format":1,"last_tick":9,"results":["+*.cars","+*.queue","+*.trip"],"actors":[
            {"name":"r","kind":"road","length":3,"room":1},
            {"name":"o","kind":"origin","route":["r"],"period":1,"count":2}]}"#,
        status: Status::Done,
        text: "tick,diasca,actor,probe,value\n0,0,r,cars,0\n1,2,r,cars,1\n2,2,r,cars,1\n4,1,r,cars,1\n\
            7,1,r,cars,0\n0,0,r,queue,0\n1,2,r,queue,0\n2,2,r,queue,1\n4,1,r,queue,0\n7,1,r,queue,0\n\
            4,0,vehicle-3,trip,3\n7,0,vehicle-4,trip,5\nend,7,1,exhausted,0\n",
        rounds: [13, 16, 6],
    },
    Run {
        scenario: r#"{"format":1,"last_tick":9,"results":["+*.cars","+*.queue","+*.trip"],"actors":[
            {"name":"r","kind":"road","length":3,"room":2},
            {"name":"o","kind":"origin","route":["r"],"period":1,"count":2}]}"#,
        status: Status::Done,
        text: "tick,diasca,actor,probe,value\n0,0,r,cars,0\n1,2,r,cars,1\n2,2,r,cars,2\n4,1,r,cars,1\n\
            5,1,r,cars,0\n0,0,r,queue,0\n1,2,r,queue,0\n2,2,r,queue,0\n4,1,r,queue,0\n5,1,r,queue,0\n\
            4,0,vehicle-3,trip,3\n5,0,vehicle-4,trip,3\nend,5,1,exhausted,0\n",
        rounds: [13, 16, 6],
    },
    Run {
        scenario: r#"{"format":2,"last_tick":120,"results":["+*.trip"],"actors":[
            {"name":"north_gate","kind":"road","length":4,"room":2},
            {"name":"bridge","kind":"road","length":3,"room":1},
            {"name":"market","kind":"road","length":2,"room":2},
            {"name":"farm","kind":"origin","route":["north_gate","bridge","market"],"period":2,"count":6},
            {"name":"mill","kind":"origin","route":["bridge","market"],"period":5,"count":3}],
            "urgent":["mill"],"max_actors":1000000}"#,
        status: Status::Done,
        text: "tick,diasca,actor,probe,value\n13,0,vehicle-6,trip,11\n16,0,vehicle-7,trip,12\n\
            10,0,vehicle-8,trip,5\n22,0,vehicle-9,trip,16\n25,0,vehicle-10,trip,17\n\
            31,0,vehicle-11,trip,21\n19,0,vehicle-12,trip,9\n34,0,vehicle-13,trip,22\n\
            28,0,vehicle-14,trip,13\nend,34,1,exhausted,0\n",
        rounds: [99, 128, 72],
    },
];

/// Numbers of workers and of managers.
pub(crate) const PLANS: [(&str, &str); 6] = [
    ("1", "1"),
    ("1", "3"),
    ("1", "16"),
    ("4", "1"),
    ("4", "3"),
    ("4", "16"),
];

/// Two clocks that beat at once, and their run.
pub(crate) const TWO_CLOCKS: Run<'static> = Run {
    scenario: r#"{"format":1,"last_tick":1,"results":["+*"],"actors":[
        {"name":"a","kind":"clock","period":1,"count":1},
        {"name":"b","kind":"clock","period":1,"count":1}]}"#,
    status: Status::Done,
    text: "tick,diasca,actor,probe,value\n1,0,a,beats,1\n1,0,b,beats,1\nend,1,0,exhausted,0\n",
    rounds: [2, 4, 0],
};

/// Two fuses of which the first decides, and their run.
pub(crate) const TWO_FUSES: Run<'static> = Run {
    scenario: r#"{"format":1,"last_tick":9,"actors":[
        {"name":"a","kind":"fuse","at":1,"code":41},
        {"name":"b","kind":"fuse","at":1,"code":7},
        {"name":"c","kind":"clock","period":1,"count":1}]}"#,
    status: Status::ActorFault,
    text: "tick,diasca,actor,probe,value\nend,1,0,fault:1:41,0\n",
    rounds: [2, 6, 0],
};

/// Words of plans: workers and managers at their ends, each policy, and a wide tree.
pub(crate) const PLANNED: [&[&str]; 9] = [
    &["run", "--managers", "16"],
    &["run", "--workers", "2"],
    &["run", "--workers", "2", "--managers", "2"],
    &["run", "--workers", "2", "--managers", "16"],
    &["run", "--workers", "64"],
    &["run", "--workers", "64", "--managers", "16"],
    &["run", "--workers", "64", "--policy", "load"],
    &["run", "--fanout", "0000000008", "--policy", "name"],
    &[
        "run",
        "--managers",
        "16",
        "--fanout",
        "3",
        "--policy",
        "round",
    ],
];

/// Words of generated runs, their summaries, and their rounds.
pub(crate) const GENERATED: [(&[&str], &str, [u64; 3]); 4] = [
    (&["gen", "1"], ONE_GROUP, ONE_GROUP_ROUNDS),
    (&["gen", "1", "--workers", "3"], ONE_GROUP, ONE_GROUP_ROUNDS),
    (
        &["gen", "0000000020", "--policy", "load", "--managers", "5"],
        TWENTY_GROUPS,
        TWENTY_GROUPS_ROUNDS,
    ),
    (
        &["gen", "20", "--workers", "4", "--managers", "16"],
        TWENTY_GROUPS,
        TWENTY_GROUPS_ROUNDS,
    ),
];

const ONE_GROUP: &str =
    "actors,10\nsamples,65\nsha256,e8e83c7906af28c0ef0c145d31aab69330eec27f987ae34d77675db397eb8f60\nend,100,2,tick_limit,0\n";

const ONE_GROUP_ROUNDS: [u64; 3] = [139, 196, 123];

const TWENTY_GROUPS: &str =
    "actors,200\nsamples,1315\nsha256,260ef88a2a41946213cd24bd23df6a9d3202a3c87dd595a535a2fbce292575ea\nend,100,2,tick_limit,0\n";

const TWENTY_GROUPS_ROUNDS: [u64; 3] = [337, 4025, 2550];

/// The summary of 200 groups, and their rounds.
pub(crate) const TWO_HUNDRED_GROUPS: (&str, [u64; 3]) = (
    "actors,2000\nsamples,12884\nsha256,b1c543dcdc8c394675c5c33971a90b9b292fcec740fab1fe8b5539902c1e6e5b\nend,100,2,tick_limit,0\n",
    [340, 39_500, 25_016],
);

/// Workers, managers and policies of a large run.
pub(crate) const WIDE_PLANS: [(&str, &str, &str); 4] = [
    ("1", "1", "round"),
    ("2", "16", "name"),
    ("8", "5", "load"),
    ("64", "3", "round"),
];

/// Words that are refused, and the line that tells why: each form of a line.
pub(crate) const REFUSED_WORDS: [(&[&str], &str); 9] = [
    (&[], "words: 0: no command\n"),
    (&["walk", "run"], "words: 0: unknown command\n"),
    (&["check", "--workers", "2"], "words: 1: unknown option\n"),
    (
        &["run", "--workers", "2", "--workers", "0"],
        "words: 3: option twice\n",
    ),
    (&["run", "--workers"], "words: 1: value missing\n"),
    (&["run", "--workers", "x"], "words: 2: not a number\n"),
    (&["run", "--workers", "0"], "words: 2: out of range\n"),
    (
        &["run", "--managers", "9999999999"],
        "words: 2: out of range\n",
    ),
    (
        &["run", "--workers", "2", "--policy", "rounds"],
        "words: 4: unknown policy\n",
    ),
];

/// The bytes that an end of the outside passes at most a call, and the call that fails, from 1; 0 for
/// none.
#[derive(Clone, Copy)]
pub(crate) struct End {
    pub(crate) cut: u32,
    pub(crate) failing: u32,
}

/// An end that never fails.
pub(crate) const STEADY: End = End {
    cut: 4096,
    failing: 0,
};

/// The ends of a call.
#[derive(Clone, Copy)]
pub(crate) struct Ends {
    pub(crate) input: End,
    pub(crate) output: End,
    pub(crate) error: End,
}

/// Ends that pass few bytes a call and never fail.
pub(crate) const ENDS: Ends = Ends {
    input: STEADY,
    output: End { cut: 9, failing: 0 },
    error: End { cut: 5, failing: 0 },
};

const NEGATIVE: &str =
    r#"{"format":1,"last_tick":4,"actors":[{"name":"c","kind":"clock","period":-1}]}"#;

/// A scenario under ends that fail, and the status, the output and the line that are left.
pub(crate) const FAILING: [(&str, Ends, Status, &str, &str); 7] = [
    (
        ONE_CLOCK,
        Ends {
            input: End {
                cut: 40,
                failing: 2,
            },
            ..ENDS
        },
        Status::InputFault,
        "",
        "input fault\n",
    ),
    (
        ONE_CLOCK,
        Ends {
            output: End {
                cut: 10,
                failing: 2,
            },
            error: End { cut: 5, failing: 2 },
            ..ENDS
        },
        Status::OutputFault,
        "tick,diasc",
        "outpu",
    ),
    (
        NEGATIVE,
        Ends {
            error: End {
                cut: 4096,
                failing: 1,
            },
            ..ENDS
        },
        Status::ScenarioRefused,
        "",
        "",
    ),
    (
        NEGATIVE,
        Ends {
            error: End {
                cut: 4096,
                failing: 2,
            },
            ..ENDS
        },
        Status::ScenarioRefused,
        "",
        "scenario: ",
    ),
    (
        NEGATIVE,
        Ends {
            error: End {
                cut: 4096,
                failing: 3,
            },
            ..ENDS
        },
        Status::ScenarioRefused,
        "",
        "scenario: out of range ",
    ),
    (
        NEGATIVE,
        Ends {
            error: End {
                cut: 4096,
                failing: 5,
            },
            ..ENDS
        },
        Status::ScenarioRefused,
        "",
        "scenario: out of range actor 1",
    ),
    (
        NEGATIVE,
        Ends {
            error: End {
                cut: 4096,
                failing: 10,
            },
            ..ENDS
        },
        Status::ScenarioRefused,
        "",
        "scenario: out of range actor 1 period -1\n",
    ),
];
