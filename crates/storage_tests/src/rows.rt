use actor_trait::Sample;
use probes::{Buffer, KeepAll, Sieve, merge};
use sim_base::{ActorId, Memory, Moment};
use std::alloc::Global;
use std::test::Fail;

/// What an actor samples at a moment: tick, diasca, actor, and the values.
type Event = (u64, u32, u32, &'static [i64]);

/// The events of each buffer, and the values of all rows in live order.
struct Case {
    buffers: &'static [&'static [Event]],
    merged: &'static [i64],
}

const CASES: [Case; 9] = [
    Case {
        buffers: &[&[(1, 0, 3, &[13])], &[(1, 0, 2, &[12]), (2, 0, 2, &[22])]],
        merged: &[12, 13, 22],
    },
    Case {
        buffers: &[],
        merged: &[],
    },
    Case {
        buffers: &[&[], &[]],
        merged: &[],
    },
    Case {
        buffers: &[&[(0, 0, 1, &[1, 2]), (0, 1, 1, &[3]), (4, 0, 2, &[4])]],
        merged: &[1, 2, 3, 4],
    },
    Case {
        buffers: &[&[], &[(0, 0, 4, &[8, 7])], &[]],
        merged: &[8, 7],
    },
    // a later diasca of a lesser actor, and a later tick of a lesser diasca
    Case {
        buffers: &[
            &[(3, 1, 1, &[2]), (4, 0, 1, &[4])],
            &[(3, 0, 9, &[1]), (3, 2, 9, &[3])],
        ],
        merged: &[1, 2, 3, 4],
    },
    // an event without samples, and one that comes again and isn't taken
    Case {
        buffers: &[
            &[(3, 0, 1, &[]), (3, 0, 1, &[5]), (3, 0, 1, &[6])],
            &[(2, 0, 7, &[4])],
        ],
        merged: &[4, 5],
    },
    // an event in two buffers
    Case {
        buffers: &[&[(6, 0, 2, &[1, 2])], &[(6, 0, 1, &[0]), (6, 0, 2, &[3])]],
        merged: &[0, 1, 2, 3],
    },
    Case {
        buffers: &[
            &[(1, 0, 1, &[1]), (1, 0, 4, &[4]), (2, 0, 1, &[6])],
            &[(1, 0, 2, &[2]), (2, 0, 2, &[7])],
            &[
                (1, 0, 3, &[3]),
                (1, 0, 6, &[5]),
                (u64::MAX, u32::MAX, u32::MAX, &[8]),
            ],
        ],
        merged: &[1, 2, 3, 4, 5, 6, 7, 8],
    },
];

/// A buffer of events, but for those that aren't after its last row.
fn filled(alloc: Global, events: &[Event]) -> Result<Buffer, Memory> {
    let mut buffer = Buffer::new(alloc);
    for (tick, diasca, actor, values) in events {
        let at = Moment {
            tick: *tick,
            diasca: *diasca,
        };
        let mut samples = Vec::new(alloc);
        for value in *values {
            samples.push(Sample {
                probe: 3,
                value: *value,
            })?;
        }
        if buffer.ends_before(at, ActorId(*actor)) {
            buffer.add(at, ActorId(*actor), &samples)?;
        }
    }
    Ok(buffer)
}

#[test]
fn buffers_merge_in_live_order(rt: HostRuntime) -> Result<(), Fail> {
    for case in &CASES {
        let mut buffers = Vec::new(rt.alloc());
        for events in case.buffers {
            buffers.push(filled(rt.alloc(), events)?)?;
        }
        let merged = merge(rt.alloc(), &buffers)?;
        let rows = merged.as_slice();
        assert_eq!(rt; rows.len(), case.merged.len());
        assert!(rt;
            rows.iter()
                .zip(case.merged)
                .all(|(row, value)| row.value == *value)
        );
        assert!(rt; rows.iter().all(|row| row.probe == 3));
    }
    Ok(())
}

/// Keeps what is sampled at the probe of number 1.
struct SecondProbe;

impl Sieve for SecondProbe {
    ghost use Rattle.std.specs.Prelude.{nat_eq};

    ghost keeps = { λ _ _ probe. nat_eq probe 1 };

    fn keeps(&self, _actor: ActorId, probe: u32) -> bool {
        probe == 1
    }
}

/// What an actor samples at its probes 0, 1 and so on.
fn samples(alloc: Global, values: &[i64]) -> Result<Vec<Sample>, Memory> {
    let mut samples = Vec::new(alloc);
    let mut probe = 0;
    for value in values {
        samples.push(Sample {
            probe,
            value: *value,
        })?;
        probe = probe.saturating_add(1);
    }
    Ok(samples)
}

/// Adds what a sieve keeps of an event, if the event is after the last row.
fn add_kept<S: Sieve>(
    buffer: &mut Buffer,
    actor: u32,
    samples: &[Sample],
    sieve: &S,
) -> Result<(), Memory> {
    let at = Moment { tick: 1, diasca: 0 };
    if buffer.ends_before(at, ActorId(actor)) {
        buffer.add_kept(at, ActorId(actor), samples, sieve)?;
    }
    Ok(())
}

#[test]
fn a_sieve_keeps_some_samples(rt: HostRuntime) -> Result<(), Fail> {
    let mut buffer = Buffer::new(rt.alloc());
    add_kept(
        &mut buffer,
        1,
        &samples(rt.alloc(), &[10, 11, 12])?,
        &SecondProbe,
    )?;
    add_kept(&mut buffer, 2, &samples(rt.alloc(), &[20])?, &SecondProbe)?;
    add_kept(&mut buffer, 3, &samples(rt.alloc(), &[30, 31])?, &KeepAll)?;
    let rows = buffer.as_slice();
    assert_eq!(rt; rows.len(), 3);
    assert!(rt;
        rows.iter()
            .zip(&[11, 30, 31])
            .all(|(row, value)| row.value == *value)
    );
    assert!(rt;
        rows.iter()
            .zip(&[1, 3, 3])
            .all(|(row, actor)| row.actor.0 == *actor)
    );
    Ok(())
}
