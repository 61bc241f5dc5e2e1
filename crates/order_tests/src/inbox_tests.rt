use actor_trait::{Letter, Payload, Precedence};
use inbox_order::{Inboxes, order_inbox};
use sim_base::{ActorId, Items, Memory, Moment};
use std::alloc::Global;
use std::process::Abort;

/// When the letters of these tests were sent.
const SENT: Moment = Moment { tick: 6, diasca: 2 };

/// Senders and serials of the letters to one actor.
type Letters = &'static [(u32, u32)];

/// Letters as they arrive.
const ARRIVED: Letters = &[(3, 0), (5, 0), (5, 1), (2, 0), (7, 4)];

/// The same to actor 9, in inbox order under the seeds 2 and 5, by Python's hashlib.
const UNDER_2: Letters = &[(5, 0), (7, 4), (3, 0), (2, 0), (5, 1)];

const UNDER_5: Letters = &[(5, 1), (7, 4), (2, 0), (3, 0), (5, 0)];

/// Senders whose letters come first.
const URGENT: [ActorId; 2] = [ActorId(4), ActorId(7)];

/// Recipients, their letters as they arrive, and the same in inbox order under the seed 2 where the
/// senders 4 and 7 are urgent, by Python's hashlib.
const MIXED: [(u32, Letters, Letters); 7] = [
    (1, &[(2, 0), (3, 0), (4, 0)], &[(4, 0), (3, 0), (2, 0)]),
    (11, &[(4, 0)], &[(4, 0)]),
    (12, &[(2, 5), (4, 7)], &[(4, 7), (2, 5)]),
    (13, &[(2, 0), (7, 3), (4, 4)], &[(7, 3), (4, 4), (2, 0)]),
    (
        14,
        &[(2, 1), (3, 2), (5, 0), (8, 0)],
        &[(8, 0), (3, 2), (5, 0), (2, 1)],
    ),
    (
        15,
        &[(7, 0), (4, 2), (3, 3), (7, 1), (2, 2)],
        &[(4, 2), (7, 0), (7, 1), (2, 2), (3, 3)],
    ),
    (
        16,
        &[
            (2, 3),
            (4, 3),
            (3, 4),
            (5, 1),
            (5, 2),
            (7, 2),
            (8, 2),
            (9, 0),
            (4, 4),
        ],
        &[
            (4, 4),
            (7, 2),
            (4, 3),
            (9, 0),
            (8, 2),
            (3, 4),
            (5, 1),
            (5, 2),
            (2, 3),
        ],
    ),
];

/// The order under a seed where nobody is urgent.
fn plain(seed: u64) -> Precedence<'static> {
    Precedence {
        seed,
        sent: SENT,
        urgent: &[],
    }
}

fn letter(to: u32, from: u32, serial: u32) -> Letter {
    let payload = Payload {
        code: 1,
        a: from as i64,
        b: serial as i64,
    };
    Letter {
        to: ActorId(to),
        from: ActorId(from),
        serial,
        payload,
    }
}

fn letters(alloc: Global, to: u32, sent: Letters) -> Result<Vec<Letter>, Memory> {
    let mut all = Vec::new(alloc);
    for (from, serial) in sent {
        all.push(letter(to, *from, *serial))?;
    }
    Ok(all)
}

/// These are the letters to an actor from these senders, with these serials.
fn expect(rt: &impl Abort, inbox: &[Letter], to: u32, sent: Letters) {
    assert_eq!(rt; inbox.len(), sent.len());
    for (letter_there, (from, serial)) in inbox.iter().zip(sent) {
        assert_eq!(rt; *letter_there, letter(to, *from, *serial));
    }
}

/// The letters to an actor that arrive so are ordered so.
fn is_ordered<R: Abort + AllocGlobal>(
    rt: &R,
    order: &Precedence<'_>,
    to: u32,
    arrived: Letters,
    want: Letters,
) -> Result<(), Memory> {
    let arrived = Items::of(letters(rt.alloc(), to, arrived)?);
    let ordered = order_inbox(rt.alloc(), arrived, order)?;
    expect(rt, ordered.as_slice(), to, want);
    Ok(())
}

#[test]
fn an_inbox_is_ordered_by_the_seed(rt: HostRuntime) -> Result<(), Memory> {
    is_ordered(&rt, &plain(2), 9, ARRIVED, UNDER_2)?;
    is_ordered(&rt, &plain(5), 9, ARRIVED, UNDER_5)
}

#[test]
fn urgent_senders_come_first(rt: HostRuntime) -> Result<(), Memory> {
    let precedence = Precedence {
        seed: 2,
        sent: SENT,
        urgent: &URGENT,
    };
    let mixed = &MIXED;
    let mut all = Vec::new(rt.alloc());
    for &(to, arrived, want) in mixed {
        is_ordered(&rt, &precedence, to, arrived, want)?;
        all.append(&mut letters(rt.alloc(), to, arrived)?)?;
    }
    let inboxes = Inboxes::of(rt.alloc(), &all, &precedence)?;
    for &(to, _, want) in mixed {
        expect(&rt, inboxes.inbox(ActorId(to)), to, want);
    }
    Ok(())
}

#[test]
fn letters_are_sorted_out_by_recipient(rt: HostRuntime) -> Result<(), Memory> {
    let mut all = letters(rt.alloc(), 200_000, &[(8, 0)])?;
    all.append(&mut letters(rt.alloc(), 9, ARRIVED)?)?;
    all.push(letter(4, 9, 1))?;
    let mut inboxes = Inboxes::of(rt.alloc(), &all, &plain(5))?;
    let recipients = [ActorId(4), ActorId(9), ActorId(200_000)];
    assert_eq!(rt; inboxes.recipients(), recipients.as_slice());
    expect(&rt, inboxes.inbox(ActorId(4)), 4, &[(9, 1)]);
    expect(&rt, inboxes.inbox(ActorId(9)), 9, UNDER_5);
    expect(&rt, inboxes.inbox(ActorId(200_000)), 200_000, &[(8, 0)]);
    expect(&rt, inboxes.inbox(ActorId(5)), 5, &[]);
    expect(&rt, inboxes.inbox(ActorId(u32::MAX)), u32::MAX, &[]);
    let mut room = inboxes.take_room(rt.alloc());
    assert!(rt; inboxes.recipients().is_empty());
    room.push(letter(7, 9, 2))?;
    inboxes.renew_with(rt.alloc(), room, &plain(5))?;
    expect(&rt, inboxes.as_slice(), 7, &[(9, 2)]);
    Ok(())
}

#[test]
fn parts_are_joined(rt: HostRuntime) -> Result<(), Memory> {
    let order = plain(2);
    let high = Inboxes::of(rt.alloc(), &letters(rt.alloc(), 9, ARRIVED)?, &order)?;
    let low = Inboxes::of(rt.alloc(), &letters(rt.alloc(), 4, &[(9, 1)])?, &order)?;
    let none = Inboxes::of(rt.alloc(), &[], &order)?;
    let parts = Items::of(Vec::from_array(rt.alloc(), [high, none, low])?);
    let joined = Inboxes::join(rt.alloc(), parts)?;
    assert_eq!(rt; joined.recipients(), [ActorId(4), ActorId(9)].as_slice());
    expect(&rt, joined.inbox(ActorId(4)), 4, &[(9, 1)]);
    expect(&rt, joined.inbox(ActorId(9)), 9, UNDER_2);
    Ok(())
}
