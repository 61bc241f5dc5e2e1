use placement::Policy;
use sim_base::{ActorId, Ending, Moment};

/// Workers, managers, and how actors find their managers.
pub(crate) const PLANS: [(u32, u32, Policy); 11] = [
    (1, 1, Policy::RoundRobin),
    (2, 1, Policy::RoundRobin),
    (4, 1, Policy::RoundRobin),
    (1, 3, Policy::RoundRobin),
    (2, 3, Policy::RoundRobin),
    (2, 3, Policy::ByName),
    (2, 3, Policy::LeastLoaded),
    (4, 3, Policy::LeastLoaded),
    (1, 16, Policy::ByName),
    (2, 16, Policy::LeastLoaded),
    (4, 16, Policy::RoundRobin),
];

/// What a run comes to under every plan.
#[derive(Clone, Copy)]
pub(crate) struct End {
    /// Tick, diasca, actor, probe and value of each row.
    pub(crate) rows: &'static [(u64, u32, u32, u32, i64)],
    pub(crate) ending: Ending,
    pub(crate) last: (u64, u32),
    pub(crate) dead_letters: u64,
    /// How many there ever were.
    pub(crate) cast: usize,
    /// How many rounds were closed, with how many scheduled actors and posted letters in all.
    pub(crate) rounds: [u64; 3],
}

/// A scenario, and what it comes to.
#[derive(Clone, Copy)]
pub(crate) struct Case {
    pub(crate) scenario: &'static str,
    pub(crate) end: End,
}

/// Nobody, clocks, a shop, two fuses, balls up to the limit of diascas, and depots.
pub(crate) const CASES: [Case; 7] = [
    Case {
        scenario: r#"{"format":1,"last_tick":4,"actors":[]}"#,
        end: End {
            rows: &[],
            ending: Ending::Exhausted,
            last: (0, 0),
            dead_letters: 0,
            cast: 0,
            rounds: [0, 0, 0],
        },
    },
    Case {
        scenario: r#"{"format":1,"last_tick":9,"actors":[
            {"name":"a","kind":"clock","period":3,"count":1},
            {"name":"b","kind":"clock","period":3,"count":1}]}"#,
        end: End {
            rows: &[(3, 0, 1, 0, 1), (3, 0, 2, 0, 1)],
            ending: Ending::Exhausted,
            last: (3, 0),
            dead_letters: 0,
            cast: 2,
            rounds: [2, 4, 0],
        },
    },
    Case {
        scenario: r#"{"format":1,"last_tick":6,"actors":[
            {"name":"a","kind":"clock","period":2,"count":9},
            {"name":"b","kind":"clock","period":3,"count":9},
            {"name":"c","kind":"clock","period":7,"count":1}]}"#,
        end: End {
            rows: &[
                (2, 0, 1, 0, 1),
                (3, 0, 2, 0, 1),
                (4, 0, 1, 0, 2),
                (6, 0, 1, 0, 3),
                (6, 0, 2, 0, 2),
            ],
            ending: Ending::TickLimit,
            last: (6, 0),
            dead_letters: 0,
            cast: 3,
            rounds: [5, 8, 0],
        },
    },
    Case {
        scenario: r#"{"format":1,"seed":8,"last_tick":1,"actors":[
            {"name":"m","kind":"machine","stock":1,"price":3,"close_at":0},
            {"name":"ann","kind":"customer","machine":"m","period":1,"money":5,"offer":3},
            {"name":"bob","kind":"customer","machine":"m","period":1,"money":5,"offer":3}]}"#,
        end: End {
            rows: &[
                (0, 0, 1, 0, 1),
                (0, 0, 1, 1, 0),
                (1, 1, 1, 0, 0),
                (1, 1, 1, 1, 3),
                (1, 2, 2, 0, 1),
                (1, 2, 2, 1, 2),
                (1, 2, 3, 0, 0),
                (1, 2, 3, 1, 5),
            ],
            ending: Ending::TickLimit,
            last: (1, 2),
            dead_letters: 0,
            cast: 3,
            rounds: [4, 8, 4],
        },
    },
    Case {
        scenario: r#"{"format":1,"last_tick":9,"actors":[
            {"name":"c","kind":"clock","period":2,"count":3},
            {"name":"f","kind":"fuse","at":2,"code":8},
            {"name":"g","kind":"fuse","at":2,"code":7}]}"#,
        end: End {
            rows: &[],
            ending: Ending::Fault {
                actor: ActorId(2),
                code: 8,
            },
            last: (2, 0),
            dead_letters: 0,
            cast: 3,
            rounds: [2, 6, 0],
        },
    },
    Case {
        scenario: r#"{"format":1,"last_tick":9,"diasca_limit":4,"actors":[
            {"name":"p","kind":"ball","peer":"q","at":1,"hits":9},
            {"name":"q","kind":"ball","peer":"p","at":2,"hits":1}]}"#,
        end: End {
            rows: &[(1, 1, 2, 0, 1), (1, 2, 1, 0, 1), (1, 3, 2, 0, 2)],
            ending: Ending::DiascaLimit,
            last: (1, 3),
            dead_letters: 0,
            cast: 2,
            rounds: [5, 6, 4],
        },
    },
    Case {
        scenario: r#"{"format":1,"last_tick":9,"actors":[
            {"name":"m","kind":"machine","stock":0,"price":1,"close_at":3},
            {"name":"x","kind":"depot","machine":"m","at":1,"trucks":2,"cans":5},
            {"name":"y","kind":"depot","machine":"m","at":3,"trucks":1,"cans":7}]}"#,
        end: End {
            rows: &[
                (0, 0, 1, 0, 0),
                (0, 0, 1, 1, 0),
                (1, 1, 2, 0, 2),
                (1, 1, 4, 0, 5),
                (1, 1, 5, 0, 5),
                (1, 2, 1, 0, 10),
                (1, 2, 1, 1, 0),
                (3, 1, 3, 0, 1),
                (3, 1, 6, 0, 7),
            ],
            ending: Ending::Exhausted,
            last: (3, 1),
            dead_letters: 1,
            cast: 6,
            rounds: [6, 12, 3],
        },
    },
];

/// The limit of diascas, and what an elder with three heirs comes to: each hears of no birth.
pub(crate) const ELDERS: [(u32, End); 2] = [
    (
        4,
        End {
            rows: &[
                (0, 0, 1, 0, 3),
                (0, 1, 2, 0, 2),
                (0, 2, 3, 0, 1),
                (0, 3, 4, 0, 0),
            ],
            ending: Ending::Exhausted,
            last: (0, 3),
            dead_letters: 3,
            cast: 4,
            rounds: [4, 4, 0],
        },
    ),
    (
        2,
        End {
            rows: &[(0, 0, 1, 0, 3), (0, 1, 2, 0, 2)],
            ending: Ending::DiascaLimit,
            last: (0, 1),
            dead_letters: 2,
            cast: 3,
            rounds: [2, 2, 0],
        },
    ),
];
