use actor_trait::{Letter, Payload};
use inbox_store::LetterStore;
use sim_base::{ActorId, Memory, Roomy};
use std::test::Fail;

/// Letters by their recipients, in the order in which they are put, whose drain, and the places of the
/// letters that it gives. What is left is cleared.
struct Case {
    to: &'static [u32],
    drained: u32,
    given: &'static [u32],
}

const CASES: [Case; 8] = [
    Case {
        to: &[2, 1, 2],
        drained: 2,
        given: &[0, 2],
    },
    Case {
        to: &[2, 1, 2],
        drained: 3,
        given: &[],
    },
    Case {
        to: &[],
        drained: 0,
        given: &[],
    },
    Case {
        to: &[0, 0, 0, 0],
        drained: 0,
        given: &[0, 1, 2, 3],
    },
    Case {
        to: &[5, 1, 5, 5, 2],
        drained: 5,
        given: &[0, 2, 3],
    },
    Case {
        to: &[5, 1, 5, 5, 2],
        drained: 1,
        given: &[1],
    },
    Case {
        to: &[1],
        drained: u32::MAX,
        given: &[],
    },
    Case {
        to: &[60_000, 3],
        drained: 60_000,
        given: &[0],
    },
];

fn put_all(store: &mut LetterStore, to: &[u32]) -> Result<(), Memory> {
    let mut serial = 0;
    for to in to {
        store.reserve(1, ActorId(*to))?;
        store.put(Letter {
            to: ActorId(*to),
            from: ActorId(9),
            serial,
            payload: Payload {
                code: 1,
                a: 0,
                b: 0,
            },
        });
        serial = serial.wrapping_add(1);
    }
    Ok(())
}

#[test]
fn each_recipient_has_its_letters_in_order(rt: HostRuntime) -> Result<(), Fail> {
    let mut store = LetterStore::new(rt.alloc());
    for case in &CASES {
        put_all(&mut store, case.to)?;
        let drained = ActorId(case.drained);
        let mut into = Roomy::new(rt.alloc());
        into.reserve(store.count_of(drained))?;
        store.drain_of(drained, &mut into);
        let given = into.as_slice();
        assert_eq!(rt; given.len(), case.given.len());
        assert!(rt;
            given
                .iter()
                .zip(case.given)
                .all(|(letter, place)| letter.serial == *place)
        );
        assert_eq!(rt; store.count_of(drained), 0);
        store.clear();
        assert_eq!(rt; store.count_of(ActorId(1)), 0);
    }
    Ok(())
}

#[test]
fn room_is_kept_from_moment_to_moment(rt: HostRuntime) -> Result<(), Fail> {
    let mut store = LetterStore::new(rt.alloc());
    store.reserve(3, ActorId(2))?;
    let mut into = Roomy::new(rt.alloc());
    for _ in 0..3 {
        put_all(&mut store, &[2, 1, 2])?;
        into.reserve(store.count_of(ActorId(2)))?;
        store.drain_of(ActorId(2), &mut into);
        store.clear();
    }
    assert_eq!(rt; into.len(), 6);
    assert!(rt; into.as_slice().iter().all(|letter| letter.to == ActorId(2)));
    Ok(())
}
