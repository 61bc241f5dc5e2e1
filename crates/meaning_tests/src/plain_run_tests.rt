ghost use Rattle.std.specs.Prelude.{◌≤◌, IfOk};
ghost use Rattle.std.specs.List.{All};
ghost use Rattle.actor_trait.specs.InboxOrder.{AreUrgent};

use crate::{LISTENER, Puppet};
use sim_base::{ActorId, Ending, Items, Moment, Name, Row};
use sim_model::{Setup, Start, each_run_ends, each_run_goes_on, each_world_is_whole, plain_run};
use std::alloc::Global;
use std::process::Abort;
use std::test::Fail;

/// Puppets `a` to `d`, what they are run with until tick 9, and what the run must come to.
#[derive(Clone, Copy)]
struct Case<'a> {
    diasca_limit: u32,
    max_actors: u32,
    actors: &'a [Puppet],
    /// Whose letters come first, by number.
    urgent: &'a [u32],
    /// Whose samples: tick, diasca, actor, value.
    rows: &'a [(u64, u32, u32, i64)],
    last: (u64, u32),
    ending: Ending,
    dead_letters: u64,
}

/// One whose deed is at tick 1.
const DOER: Puppet = Puppet { at: 1, ..LISTENER };

/// One that bears a listener.
const CREATOR: Puppet = Puppet { births: 1, ..DOER };

/// One that sends a letter to nobody.
const SENDER: Puppet = Puppet { sends: 1, ..DOER };

/// One that samples a probe that it hasn't.
const UNKNOWN: Puppet = Puppet {
    samples: 1,
    probe: 1,
    ..DOER
};

/// One that asks for a tick after its deed.
const ASKER: Puppet = Puppet {
    ticks: 1,
    next: 5,
    ..DOER
};

/// One that asks for the present tick.
const LATE: Puppet = Puppet { next: 1, ..ASKER };

/// A run with room for two actors that ends at the tick of the deed, without a letter.
const QUIET: Case<'static> = Case {
    diasca_limit: 1000,
    max_actors: 2,
    actors: &[DOER],
    urgent: &[],
    rows: &[],
    last: (1, 0),
    ending: Ending::Exhausted,
    dead_letters: 0,
};

/// Births, letters, retirement and the limit of diascas.
const RUNS: [Case<'static>; 12] = [
    QUIET,
    // A newborn gets a letter of its very close.
    Case {
        actors: &[Puppet {
            sends: 1,
            to: ActorId(2),
            ..CREATOR
        }],
        rows: &[(1, 1, 1, 0), (1, 1, 2, 5)],
        last: (1, 1),
        ..QUIET
    },
    // A creator that retires hears of no birth.
    Case {
        actors: &[Puppet {
            retires: true,
            ..CREATOR
        }],
        last: (1, 1),
        dead_letters: 1,
        ..QUIET
    },
    // The agenda of the retired is empty; without the retirement the second deed asks for its own tick.
    Case {
        actors: &[Puppet {
            retires: true,
            ..ASKER
        }],
        ..QUIET
    },
    Case {
        actors: &[ASKER],
        last: (5, 0),
        ending: Ending::Fault {
            actor: ActorId(1),
            code: 900,
        },
        ..QUIET
    },
    // Letters to nobody, and to one who is born later, are dead.
    Case {
        max_actors: 3,
        actors: &[SENDER, Puppet { at: 2, ..CREATOR }],
        rows: &[(2, 1, 2, 0)],
        last: (2, 1),
        dead_letters: 1,
        ..QUIET
    },
    Case {
        max_actors: 3,
        actors: &[
            Puppet {
                to: ActorId(3),
                ..SENDER
            },
            Puppet { at: 2, ..CREATOR },
        ],
        rows: &[(2, 1, 2, 0)],
        last: (2, 1),
        dead_letters: 1,
        ..QUIET
    },
    // The limit is met where somebody is scheduled at it.
    Case {
        diasca_limit: 1,
        ..QUIET
    },
    Case {
        diasca_limit: 1,
        actors: &[Puppet {
            to: ActorId(1),
            ..SENDER
        }],
        ending: Ending::DiascaLimit,
        ..QUIET
    },
    Case {
        diasca_limit: 1,
        actors: &[CREATOR],
        ending: Ending::DiascaLimit,
        ..QUIET
    },
    Case {
        diasca_limit: 2,
        actors: &[Puppet {
            to: ActorId(1),
            ..SENDER
        }],
        rows: &[(1, 1, 1, 5)],
        last: (1, 1),
        ..QUIET
    },
    Case {
        diasca_limit: 2,
        actors: &[CREATOR],
        rows: &[(1, 1, 1, 0)],
        last: (1, 1),
        ..QUIET
    },
];

/// Three who write to the first puppet at once, each its own number.
const WRITERS: [Puppet; 4] = [
    LISTENER,
    Puppet {
        to: ActorId(1),
        says: 2,
        ..SENDER
    },
    Puppet {
        to: ActorId(1),
        says: 3,
        ..SENDER
    },
    Puppet {
        to: ActorId(1),
        says: 4,
        ..SENDER
    },
];

/// The letters of urgent senders come first; within both groups the keys decide, here 3, 4, 2.
const INBOXES: [Case<'static>; 4] = [
    Case {
        max_actors: 4,
        actors: &WRITERS,
        rows: &[(1, 1, 1, 3), (1, 1, 1, 4), (1, 1, 1, 2)],
        last: (1, 1),
        ..QUIET
    },
    Case {
        max_actors: 4,
        actors: &WRITERS,
        urgent: &[2],
        rows: &[(1, 1, 1, 2), (1, 1, 1, 3), (1, 1, 1, 4)],
        last: (1, 1),
        ..QUIET
    },
    Case {
        max_actors: 4,
        actors: &WRITERS,
        urgent: &[4],
        rows: &[(1, 1, 1, 4), (1, 1, 1, 3), (1, 1, 1, 2)],
        last: (1, 1),
        ..QUIET
    },
    Case {
        max_actors: 4,
        actors: &WRITERS,
        urgent: &[2, 4],
        rows: &[(1, 1, 1, 4), (1, 1, 1, 2), (1, 1, 1, 3)],
        last: (1, 1),
        ..QUIET
    },
];

/// One that samples its probe in vain at the moment of a fault.
const SAMPLING: Puppet = Puppet { samples: 1, ..DOER };

/// Each fault ends the run, and only the first of the least actor is told.
const FAULTS: [Case<'static>; 6] = [
    Case {
        actors: &[LATE, SAMPLING],
        ending: Ending::Fault {
            actor: ActorId(1),
            code: 900,
        },
        ..QUIET
    },
    Case {
        actors: &[UNKNOWN, SAMPLING],
        ending: Ending::Fault {
            actor: ActorId(1),
            code: 903,
        },
        ..QUIET
    },
    Case {
        actors: &[
            Puppet {
                births: 1,
                ..UNKNOWN
            },
            SAMPLING,
        ],
        ending: Ending::Fault {
            actor: ActorId(1),
            code: 902,
        },
        ..QUIET
    },
    Case {
        actors: &[
            Puppet {
                births: 1025,
                ..UNKNOWN
            },
            SAMPLING,
        ],
        ending: Ending::Fault {
            actor: ActorId(1),
            code: 901,
        },
        ..QUIET
    },
    Case {
        actors: &[Puppet { fault: 41, ..LATE }, SAMPLING],
        ending: Ending::Fault {
            actor: ActorId(1),
            code: 41,
        },
        ..QUIET
    },
    Case {
        max_actors: 3,
        actors: &[LISTENER, UNKNOWN, Puppet { fault: 7, ..DOER }],
        ending: Ending::Fault {
            actor: ActorId(2),
            code: 903,
        },
        ..QUIET
    },
];

/// A run with room for many newborn.
const CROWDED: Case<'static> = Case {
    max_actors: 2000,
    ..QUIET
};

/// One of more than 1,024.
const TOO_MANY: Case<'static> = Case {
    ending: Ending::Fault {
        actor: ActorId(1),
        code: 901,
    },
    ..CROWDED
};

/// No list of an outcome is longer than 1,024.
const LISTS: [Case<'static>; 8] = [
    Case {
        actors: &[Puppet {
            sends: 1024,
            ..DOER
        }],
        dead_letters: 1024,
        ..CROWDED
    },
    Case {
        actors: &[Puppet {
            sends: 1025,
            ..DOER
        }],
        ..TOO_MANY
    },
    Case {
        actors: &[Puppet {
            ticks: 1024,
            next: 10,
            ..DOER
        }],
        ending: Ending::TickLimit,
        ..CROWDED
    },
    Case {
        actors: &[Puppet {
            ticks: 1025,
            next: 10,
            ..DOER
        }],
        ..TOO_MANY
    },
    Case {
        actors: &[Puppet {
            births: 1025,
            ..DOER
        }],
        ..TOO_MANY
    },
    Case {
        actors: &[Puppet {
            samples: 1025,
            ..DOER
        }],
        ..TOO_MANY
    },
    Case {
        actors: &[Puppet {
            samples: 1024,
            ..DOER
        }],
        rows: &[(1, 0, 1, 0); 1024],
        ..CROWDED
    },
    Case {
        diasca_limit: 1,
        actors: &[Puppet {
            births: 1024,
            ..DOER
        }],
        ending: Ending::DiascaLimit,
        ..CROWDED
    },
];

/// At most two numbers as urgent senders, which ascend and are those of so many actors.
fn urgent_of(alloc: Global, ids: &[u32], count: usize) -> Result<Items<ActorId>, Fail>
    ensures ascending { IfOk result (λ urgent. AreUrgent urgent) }
    ensures known { IfOk result (λ urgent. All (λ id. (1 ≤ id.0) × (id.0 ≤ count)) urgent) }
{
    let mut urgent = Vec::new(alloc);
    match ids {
        [] => {}
        [first] if 1 <= *first && *first as usize <= count => urgent.push(ActorId(*first))?,
        [first, second] if 1 <= *first && *first < *second && *second as usize <= count => {
            urgent.push(ActorId(*first))?;
            urgent.push(ActorId(*second))?;
        }
        _ => return Err(Fail::from("no urgent senders")),
    }
    Ok(Items::of(urgent))
}

fn setup(alloc: Global, case: &Case<'_>) -> Result<Setup<Puppet>, Fail> {
    let mut actors = Vec::new(alloc);
    for (name, state) in ["a", "b", "c", "d"].iter().zip(case.actors) {
        let name = Name::read(name.as_bytes()).ok_or("a name")?;
        let state = *state;
        actors.push(Start { name, state })?;
    }
    let diascas = 1 <= case.diasca_limit && case.diasca_limit <= 65_535;
    let numbers = 1 <= case.max_actors && case.max_actors <= 200_000;
    if !diascas || !numbers || actors.len() > case.max_actors as usize {
        return Err(Fail::from("no setup"));
    }
    let urgent = urgent_of(alloc, case.urgent, actors.len())?;
    Ok(Setup {
        seed: 0,
        last_tick: 9,
        diasca_limit: case.diasca_limit,
        max_actors: case.max_actors,
        actors: Items::of(actors),
        urgent,
    })
}

/// Whether these are the rows, all of a puppet's one probe.
fn are_rows(rows: &[Row], expected: &[(u64, u32, u32, i64)]) -> bool {
    rows.len() == expected.len()
        && rows.iter().zip(expected).all(|(row, (tick, diasca, actor, value))| {
            (
                row.at.tick,
                row.at.diasca,
                row.actor.0,
                row.probe,
                row.value,
            ) == (*tick, *diasca, *actor, 0, *value)
        })
}

/// Each run comes to its end, with its rows.
fn runs_each(rt: &(impl AllocGlobal + Abort), cases: &[Case<'_>]) -> Result<(), Fail> {
    for case in cases {
        let setup = setup(rt.alloc(), case)?;
        let copy = setup.copy(rt.alloc())?;
        each_run_ends(&copy);
        each_run_goes_on(&copy, 1, 1);
        each_world_is_whole(&copy, 1);
        let results = plain_run(rt.alloc(), &copy)?;
        let (tick, diasca) = case.last;
        let last = Moment { tick, diasca };
        let came = (results.last, results.ending, results.dead_letters);
        assert_eq!(rt; came, (last, case.ending, case.dead_letters));
        assert!(rt; are_rows(results.rows.as_slice(), case.rows));
    }
    Ok(())
}

#[test]
fn letters_births_and_limits_are_as_defined(rt: HostRuntime) -> Result<(), Fail> {
    runs_each(&rt, &RUNS)
}

#[test]
fn urgent_letters_come_first(rt: HostRuntime) -> Result<(), Fail> {
    runs_each(&rt, &INBOXES)
}

#[test]
fn each_fault_ends_the_run(rt: HostRuntime) -> Result<(), Fail> {
    runs_each(&rt, &FAULTS)
}

#[test]
fn lists_are_at_most_1024(rt: HostRuntime) -> Result<(), Fail> {
    runs_each(&rt, &LISTS)
}
