use manager_tree::Tree;
use quiet_core::{Condition, Core, CoreEvent, Refused};
use sim_base::Memory;
use std::alloc::Global;

type Want = (CoreEvent, Result<u64, Refused>);

fn refused(condition: Condition, have: u64, need: u64) -> Result<u64, Refused> {
    Err(Refused {
        condition,
        have,
        need,
    })
}

// The place of the first event that is answered otherwise than is wanted.
fn first_wrong(core: &mut Core, wants: &[Want]) -> Option<usize> {
    for (place, (event, want)) in wants.iter().enumerate() {
        if core.apply(*event) != *want {
            return Some(place);
        }
    }
    None
}

// Two hands over three managers, until all is claimed and reported, and two letters are left.
fn report_all(alloc: Global) -> Result<(Core, Option<usize>), Memory> {
    let tree = Tree::of(alloc, 3, 2)?;
    let mut core = Core::open(alloc, &tree, &[2, 0, 1], 2)?;
    let wants = [
        (
            CoreEvent::Done {
                hand: 0,
                m: 0,
                i: 0,
            },
            refused(Condition::IsOpen, 0, 1),
        ),
        (
            CoreEvent::Climb { hand: 1, node: 2 },
            refused(Condition::HoldsDuty, 0, 1),
        ),
        (CoreEvent::Claim { hand: 0, m: 0 }, Ok(0)),
        (CoreEvent::Claim { hand: 1, m: 2 }, Ok(0)),
        (CoreEvent::Claim { hand: 1, m: 0 }, Ok(1)),
        (
            CoreEvent::Done {
                hand: 0,
                m: 0,
                i: 1,
            },
            refused(Condition::IsOpen, 0, 1),
        ),
        (
            CoreEvent::Raise {
                hand: 0,
                m: 0,
                i: 0,
                n: 0,
            },
            refused(Condition::Amount, 0, 1),
        ),
        (
            CoreEvent::Raise {
                hand: 0,
                m: 0,
                i: 0,
                n: 1025,
            },
            refused(Condition::Amount, 1024, 1025),
        ),
        (
            CoreEvent::Raise {
                hand: 0,
                m: 0,
                i: 0,
                n: 2,
            },
            Ok(2),
        ),
        (
            CoreEvent::Raise {
                hand: 0,
                m: 0,
                i: 0,
                n: 1,
            },
            refused(Condition::NotAnnounced, 0, 1),
        ),
        (
            CoreEvent::Done {
                hand: 0,
                m: 0,
                i: 0,
            },
            refused(Condition::AllPosted, 0, 1),
        ),
        (
            CoreEvent::Post {
                hand: 0,
                m: 0,
                i: 0,
                to: 2,
                n: 3,
            },
            refused(Condition::Amount, 2, 3),
        ),
        (
            CoreEvent::Post {
                hand: 0,
                m: 0,
                i: 0,
                to: 2,
                n: 2,
            },
            Ok(0),
        ),
        (
            CoreEvent::Post {
                hand: 0,
                m: 0,
                i: 0,
                to: 2,
                n: 1,
            },
            refused(Condition::Amount, 0, 1),
        ),
        (
            CoreEvent::Done {
                hand: 0,
                m: 0,
                i: 0,
            },
            Ok(4),
        ),
        (
            CoreEvent::Done {
                hand: 1,
                m: 2,
                i: 0,
            },
            Ok(1),
        ),
        (CoreEvent::Climb { hand: 1, node: 2 }, Ok(1)),
        (CoreEvent::Climb { hand: 1, node: 4 }, Ok(2)),
        (
            CoreEvent::Done {
                hand: 1,
                m: 0,
                i: 1,
            },
            Ok(3),
        ),
        (CoreEvent::Claim { hand: 0, m: 0 }, Ok(2)),
        (
            CoreEvent::Claim { hand: 0, m: 0 },
            refused(Condition::NotExhausted, 0, 1),
        ),
        (
            CoreEvent::Ack {
                hand: 1,
                m: 0,
                to: 2,
                n: 1,
            },
            refused(Condition::Collects, 0, 1),
        ),
    ];
    let wrong = first_wrong(&mut core, &wants);
    Ok((core, wrong))
}

#[test]
fn the_hand_that_collects_reaches_the_root(rt: HostRuntime) -> Result<(), Memory> {
    let (mut core, wrong) = report_all(rt.alloc())?;
    assert_eq!(rt; wrong, None);
    let wants = [
        (CoreEvent::Collect { hand: 0, to: 2 }, Ok(0)),
        (CoreEvent::Collect { hand: 1, to: 2 }, Ok(1)),
        (
            CoreEvent::Ack {
                hand: 0,
                m: 0,
                to: 2,
                n: 0,
            },
            refused(Condition::Amount, 0, 1),
        ),
        (
            CoreEvent::Look {
                hand: 0,
                m: 0,
                to: 2,
            },
            Ok(2),
        ),
        (
            CoreEvent::Ack {
                hand: 0,
                m: 0,
                to: 2,
                n: 3,
            },
            refused(Condition::Known, 2, 3),
        ),
        (
            CoreEvent::Ack {
                hand: 0,
                m: 0,
                to: 2,
                n: 18446744073709551615,
            },
            refused(Condition::Known, 2, 18446744073709551615),
        ),
        (
            CoreEvent::Ack {
                hand: 0,
                m: 0,
                to: 2,
                n: 1,
            },
            Ok(2),
        ),
        (
            CoreEvent::Ack {
                hand: 0,
                m: 0,
                to: 2,
                n: 1,
            },
            Ok(1),
        ),
        (CoreEvent::Climb { hand: 0, node: 0 }, Ok(1)),
        (CoreEvent::Climb { hand: 0, node: 3 }, Ok(1)),
    ];
    assert_eq!(rt; first_wrong(&mut core, &wants), None);
    assert_eq!(rt; core.hands(), 2);
    assert!(rt; core.holds_root(0));
    assert!(rt; !core.holds_root(1));
    Ok(())
}

#[test]
fn a_hand_that_posted_nothing_reaches_the_root(rt: HostRuntime) -> Result<(), Memory> {
    let (mut core, wrong) = report_all(rt.alloc())?;
    assert_eq!(rt; wrong, None);
    let wants = [
        (
            CoreEvent::Claim { hand: 2, m: 0 },
            refused(Condition::InRange, 0, 1),
        ),
        (
            CoreEvent::Claim { hand: 0, m: 3 },
            refused(Condition::InRange, 0, 1),
        ),
        (
            CoreEvent::Look {
                hand: 0,
                m: 0,
                to: 3,
            },
            refused(Condition::InRange, 0, 1),
        ),
        (
            CoreEvent::Climb { hand: 0, node: 6 },
            refused(Condition::InRange, 0, 1),
        ),
        (
            CoreEvent::Join { hand: 0, from: 2 },
            refused(Condition::InRange, 0, 1),
        ),
        (
            CoreEvent::Join { hand: 0, from: 0 },
            refused(Condition::Apart, 0, 1),
        ),
        (
            CoreEvent::Split { hand: 0, new: 1 },
            refused(Condition::TwoWeights, 1, 2),
        ),
        (CoreEvent::Join { hand: 0, from: 1 }, Ok(0)),
        (
            CoreEvent::Join { hand: 0, from: 1 },
            refused(Condition::HasWeight, 0, 1),
        ),
        (
            CoreEvent::Claim { hand: 1, m: 0 },
            refused(Condition::HasWeight, 0, 1),
        ),
        (
            CoreEvent::Split { hand: 0, new: 0 },
            refused(Condition::Apart, 0, 1),
        ),
        (CoreEvent::Split { hand: 0, new: 1 }, Ok(0)),
        (
            CoreEvent::Split { hand: 0, new: 1 },
            refused(Condition::TwoWeights, 1, 2),
        ),
        (
            CoreEvent::Claim { hand: 0, m: 1 },
            refused(Condition::NotCollecting, 0, 1),
        ),
        (
            CoreEvent::Look {
                hand: 1,
                m: 0,
                to: 2,
            },
            Ok(2),
        ),
        (CoreEvent::Collect { hand: 1, to: 2 }, Ok(0)),
        (
            CoreEvent::Ack {
                hand: 1,
                m: 0,
                to: 2,
                n: 2,
            },
            Ok(2),
        ),
        (CoreEvent::Climb { hand: 1, node: 0 }, Ok(1)),
        (CoreEvent::Climb { hand: 1, node: 3 }, Ok(1)),
    ];
    assert_eq!(rt; first_wrong(&mut core, &wants), None);
    assert_eq!(rt; core.hands(), 2);
    assert!(rt; core.holds_root(1));
    Ok(())
}

#[test]
fn the_leaf_of_one_manager_is_the_root(rt: HostRuntime) -> Result<(), Memory> {
    let tree = Tree::of(rt.alloc(), 1, 2)?;
    let mut core = Core::open(rt.alloc(), &tree, &[1], 3)?;
    let wants = [
        (CoreEvent::Claim { hand: 2, m: 0 }, Ok(0)),
        (CoreEvent::Join { hand: 0, from: 1 }, Ok(0)),
        (
            CoreEvent::Split { hand: 0, new: 2 },
            refused(Condition::Weightless, 0, 1),
        ),
        (
            CoreEvent::Done {
                hand: 2,
                m: 0,
                i: 0,
            },
            Ok(1),
        ),
    ];
    assert_eq!(rt; first_wrong(&mut core, &wants), None);
    assert_eq!(rt; core.hands(), 3);
    assert!(rt; core.holds_root(2));
    Ok(())
}
