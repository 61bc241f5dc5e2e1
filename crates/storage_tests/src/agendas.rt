ghost use Rattle.std.specs.Prelude.{◌≡◌, ◌<◌};

use agenda::{Agenda, SortedAgenda};
use agenda_wheel::WheelAgenda;
use sim_base::{ActorId, Memory, Roomy, Steps};
use std::alloc::Global;
use std::collections::BTreeSet;
use std::marker::Brand;
use std::process::Abort;
use std::sync::ledger::{Blank, Ledger};
use std::test::Fail;

/// A call on an agenda, and what it answers.
#[derive(Clone, Copy)]
enum Call {
    Add(u64, u32),
    Drop(u32),
    Due(u64, usize),
    Take(u64, &'static [u32]),
    Least(Option<u64>),
    Ticks(u32, &'static [u64]),
}

const CALLS: [Call; 27] = [
    Call::Least(None),
    Call::Add(5, 1),
    Call::Add(3, 2),
    Call::Add(5, 1),
    Call::Add(5, 2),
    Call::Least(Some(3)),
    Call::Ticks(2, &[3, 5]),
    Call::Drop(2),
    Call::Due(5, 1),
    Call::Take(5, &[1]),
    Call::Least(None),
    // three laps of one bucket, the actors not in their order
    Call::Add(2053, 4),
    Call::Add(5, 4),
    Call::Add(1029, 9),
    Call::Add(1029, 3),
    Call::Add(1029, 4),
    Call::Ticks(4, &[5, 1029, 2053]),
    Call::Due(1029, 3),
    Call::Drop(7),
    Call::Take(1029, &[3, 4, 9]),
    Call::Take(1029, &[]),
    Call::Least(Some(5)),
    Call::Drop(4),
    // the last tick of all
    Call::Add(u64::MAX, 0),
    Call::Least(Some(u64::MAX)),
    Call::Take(u64::MAX, &[0]),
    Call::Least(None),
];

fn answer<A: Agenda>(
    rt: &impl Abort,
    alloc: Global,
    agenda: &mut A,
    call: Call,
) -> Result<(), Memory> {
    match call {
        Call::Add(tick, actor) => {
            agenda.reserve(1, ActorId(actor))?;
            agenda.add(tick, ActorId(actor));
        }
        Call::Drop(actor) => agenda.drop_actor(ActorId(actor)),
        Call::Due(tick, want) => assert_eq!(rt; agenda.due(tick), want),
        Call::Take(tick, want) => {
            let taken = take(alloc, agenda, tick)?;
            assert_eq!(rt; taken.len(), want.len());
            for (actor, id) in taken.as_slice().iter().zip(want) {
                assert_eq!(rt; actor.0, *id);
            }
        }
        Call::Least(want) => assert_eq!(rt; agenda.least(), want),
        Call::Ticks(actor, want) => {
            let ticks = agenda.ticks_of(alloc, ActorId(actor))?;
            assert_eq!(rt; ticks.as_slice(), want);
        }
    }
    Ok(())
}

fn take<A: Agenda>(alloc: Global, agenda: &mut A, tick: u64) -> Result<Roomy<ActorId>, Memory> {
    let mut taken = Roomy::new(alloc);
    taken.reserve(agenda.due(tick))?;
    agenda.take_due(tick, &mut taken);
    Ok(taken)
}

fn answer_all<A: Agenda + Drop>(rt: &impl Abort, alloc: Global) -> Result<(), Memory> {
    let mut agenda = A::new(alloc)?;
    for call in CALLS {
        answer(rt, alloc, &mut agenda, call)?;
    }
    Ok(())
}

#[test]
fn both_agendas_answer_a_list_of_calls(rt: HostRuntime) -> Result<(), Fail> {
    answer_all::<SortedAgenda>(&rt, rt.alloc())?;
    answer_all::<WheelAgenda>(&rt, rt.alloc())?;
    Ok(())
}

/// Ticks of few buckets and of several laps, the first and the last among them.
const TICKS: [u64; 8] = [0, 5, 1023, 1024, 1029, 2053, u64::MAX - 1024, u64::MAX];

/// An agenda and the ordered set of its pairs.
#[derive(Drop)]
struct Twins<A: Drop> {
    agenda: A,
    pairs: BTreeSet<(u64, u32)>,
}

impl<A: Agenda + Drop> Twins<A> {
    fn change(&mut self, alloc: Global, way: u64, tick: u64, actor: u32) -> Result<(), Memory> {
        match way {
            0 => {
                self.agenda.drop_actor(ActorId(actor));
                self.pairs.retain(|pair| pair.1 != actor);
            }
            1 => {
                take(alloc, &mut self.agenda, tick)?;
                self.pairs.retain(|pair| pair.0 != tick);
            }
            _ => {
                self.agenda.reserve(1, ActorId(actor))?;
                self.agenda.add(tick, ActorId(actor));
                self.pairs.insert((tick, actor))?;
            }
        }
        Ok(())
    }

    fn agree(&self, rt: &impl Abort, alloc: Global, tick: u64, actor: u32) -> Result<(), Memory> {
        let mut ticks = Vec::new(alloc);
        let mut actors = Vec::new(alloc);
        for pair in &self.pairs {
            if pair.1 == actor {
                ticks.push(pair.0)?;
            }
            if pair.0 == tick {
                actors.push(pair.1)?;
            }
        }
        let least = self.pairs.first().map(|pair| pair.0);
        assert_eq!(rt; self.agenda.least(), least);
        assert_eq!(rt; self.agenda.due(tick), actors.len());
        let asked = self.agenda.ticks_of(alloc, ActorId(actor))?;
        assert_eq!(rt; asked.as_slice(), ticks.as_slice());
        Ok(())
    }
}

fn agree_with_a_set<A: Agenda + Drop>(
    rt: &impl Abort,
    alloc: Global,
    seed: u64,
) -> Result<(), Memory> {
    let mut twins = Twins {
        agenda: A::new(alloc)?,
        pairs: BTreeSet::new(alloc),
    };
    let mut state = seed;
    for _call in 0..400 {
        state = state
            .wrapping_mul(6_364_136_223_846_793_005)
            .wrapping_add(1_442_695_040_888_963_407);
        let tick = TICKS[(state >> 40) as usize % 8];
        let actor = ((state >> 50) % 6) as u32;
        twins.change(alloc, (state >> 33) % 8, tick, actor)?;
        twins.agree(rt, alloc, tick, actor)?;
    }
    Ok(())
}

#[test]
fn both_agendas_agree_with_an_ordered_set(rt: HostRuntime) -> Result<(), Fail> {
    for seed in [1, 2, 3] {
        agree_with_a_set::<SortedAgenda>(&rt, rt.alloc(), seed)?;
        agree_with_a_set::<WheelAgenda>(&rt, rt.alloc(), seed)?;
    }
    Ok(())
}

fn drop_in_steps<L: Ledger>(rt: &impl Abort, alloc: Global, blank: Blank) -> Result<(), Memory>
    requires name { blank.name ≡ L.name }
    requires parts { blank.parts ≡ L.parts }
    requires some { 0 < blank.parts }
{
    let mut agenda = WheelAgenda::new(alloc)?;
    let mut steps = Steps::<L>::new(blank);
    for call in [Call::Add(5, 1), Call::Add(7, 1), Call::Add(5, 2)] {
        answer(rt, alloc, &mut agenda, call)?;
    }
    agenda.drop_counted(ActorId(1), &mut steps);
    answer(rt, alloc, &mut agenda, Call::Ticks(1, &[]))?;
    answer(rt, alloc, &mut agenda, Call::Add(5, 1))?;
    answer(rt, alloc, &mut agenda, Call::Take(5, &[1, 2]))?;
    agenda.drop_counted(ActorId(3), &mut steps);
    answer(rt, alloc, &mut agenda, Call::Least(None))
}

#[test]
fn drops_are_counted(rt: HostRuntime) -> Result<(), Fail> {
    drop_in_steps::<Brand>(&rt, rt.alloc(), Blank::new(1))?;
    Ok(())
}
