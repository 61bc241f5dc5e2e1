ghost use Rattle.std.specs.Prelude.{◌≡◌, ◌<◌};

use sim_base::{Few, Items, Memory, Roomy, Steps};
use std::marker::Brand;
use std::sync::ledger::{Blank, Ledger};
use std::test::Fail;

#[test]
fn lists_grow_and_are_read(rt: HostRuntime) -> Result<(), Fail> {
    let mut items = Items::with_room(rt.alloc(), 2)?;
    assert!(rt; items.is_empty());
    items.push(7u64).map_err(|_| Memory)?;
    items.add(9)?;
    assert_eq!(rt; items.len(), 2);
    assert_eq!(rt; items.as_slice(), [7, 9].as_slice());
    assert_eq!(rt; items.get(1), Some(&9));
    assert_eq!(rt; items.get(2), None);
    assert_eq!(rt; items.into_vec().capacity(), 2);
    let none: Items<u64> = Items::with_room(rt.alloc(), 0)?;
    assert_eq!(rt; none.into_vec().capacity(), 0);
    let mut one = Items::new(rt.alloc());
    one.add(7u64)?;
    assert_eq!(rt; one.into_vec().capacity(), 1);
    assert_eq!(rt; format!(in rt.alloc(); "{Memory}")?.as_str(), "no memory");
    Ok(())
}

#[test]
fn a_short_list_grows_past_its_places(rt: HostRuntime) -> Result<(), Fail> {
    let mut few: Few<u64, 2> = Few::new(rt.alloc());
    assert!(rt; few.is_empty());
    few.add(7)?;
    few.add(9)?;
    few.add(8)?;
    assert_eq!(rt; few.len(), 3);
    assert_eq!(rt; few.as_slice(), [7, 9, 8].as_slice());
    let given: Few<u64, 1> = Few::of(few.as_slice().to_vec(rt.alloc())?);
    let mut roomy: Few<u64, 1> = Few::with_room(rt.alloc(), 4)?;
    roomy.add(7)?;
    assert_eq!(rt; (given.len(), roomy.len()), (3, 1));
    Ok(())
}

#[test]
fn reserved_room_is_filled(rt: HostRuntime) -> Result<(), Fail> {
    let mut items = Roomy::new(rt.alloc());
    items.reserve(4)?;
    items.add(1u64);
    items.add(9);
    items.add(7);
    items.add(8);
    items.sort_from(1);
    assert_eq!(rt; items.as_slice(), [1, 7, 8, 9].as_slice());
    items.reverse_from(2);
    assert_eq!(rt; items.len(), 4);
    assert_eq!(rt; items.as_slice(), [1, 7, 9, 8].as_slice());
    items.clear();
    assert_eq!(rt; items.len(), 0);
    items.add(5);
    assert_eq!(rt; items.into_items().as_slice(), [5].as_slice());
    count_two::<Brand>(Blank::new(1));
    Ok(())
}

fn count_two<L: Ledger>(blank: Blank)
    requires name { blank.name ≡ L.name }
    requires parts { blank.parts ≡ L.parts }
    requires some { 0 < blank.parts }
{
    let mut steps = Steps::<L>::new(blank);
    steps.tick();
    steps.tick();
}
