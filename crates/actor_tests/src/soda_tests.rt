use crate::steps::{
    Birth, Step, Why, at, bears, comes_to, each_comes_to, event, has_names, letters,
};
use sim_base::ActorId;
use soda_model::{Customer, Depot, Machine, RandomCustomer, Refill};
use std::process::Abort;
use std::test::Fail;

const SHOP: ActorId = ActorId(1);

/// A machine with one can of price 3. Actor 2 pays enough, actor 3 comes when it is sold out, and is
/// filled; then actor 2 pays too little, and a letter that it doesn't know comes. It closes at tick 9.
const MACHINE: [Step<'static>; 2] = [
    (
        Why::First,
        0,
        &[
            (2, 10, 5),
            (3, 10, 4),
            (4, 13, 1_000_000_000),
            (4, 13, 5),
            (2, 10, 2),
            (2, 7, 1),
        ],
        &[(2, 11, 2, 0), (3, 12, 4, 1), (2, 12, 2, 2)],
        &[9],
        &[(0, 1_000_000_000), (1, 3)],
        false,
    ),
    (Why::Tick, 9, &[], &[], &[], &[], true),
];

/// A machine that has as many coins as can be counted, and another that also owes cans.
const RICH: Machine = Machine {
    stock: 1,
    price: 1,
    close_at: 0,
    coins: i64::MAX,
};

const INDEBTED: Machine = Machine {
    stock: i64::MIN,
    price: 1,
    close_at: 0,
    coins: i64::MAX,
};

const OWES: Step<'static> = (
    Why::Letters,
    0,
    &[(2, 13, i64::MAX), (2, 10, 1)],
    &[(2, 12, 1, 2)],
    &[],
    &[(0, -1), (1, i64::MAX)],
    false,
);

const PAID: Step<'static> = (
    Why::Letters,
    0,
    &[(2, 10, i64::MAX)],
    &[(2, 11, i64::MAX - 1, 0)],
    &[],
    &[(0, 0), (1, i64::MAX)],
    false,
);

#[test]
fn a_machine_sells_refuses_and_is_filled(rt: HostRuntime) -> Result<(), Fail> {
    let machine = Machine {
        stock: 1,
        price: 3,
        close_at: 9,
        coins: 0,
    };
    each_comes_to(&rt, machine, &MACHINE)?;
    has_names(&rt, &machine, "machine", &["stock", "coins"]);
    assert_eq!(rt; comes_to(&rt, &RICH, PAID)?.coins, i64::MAX);
    assert_eq!(rt; comes_to(&rt, &INDEBTED, OWES)?.stock, -1);
    Ok(())
}

/// A customer that gets a can and a refund, and a can from a machine that isn't its own.
const CUSTOMER: Step<'static> = (
    Why::FirstAndTick,
    4,
    &[(1, 11, 1), (1, 12, 3), (2, 11, 9)],
    &[(1, 10, 3, 0)],
    &[8, 8],
    &[(0, 1), (1, 6)],
    false,
);

/// A customer that hasn't what it would offer.
const POOR: Step<'static> = (Why::Tick, 4, &[], &[], &[], &[], false);

/// A customer that draws how long it waits.
const RANDOM: Step<'static> = (
    Why::FirstAndTick,
    4,
    &[(1, 11, 1)],
    &[(1, 10, 3, 0)],
    &[11, 11],
    &[(0, 1), (1, 3)],
    false,
);

fn customer(money: i64) -> Customer {
    Customer {
        machine: SHOP,
        period: 4,
        money,
        offer: 3,
        cans: 0,
    }
}

#[test]
fn customers_buy_and_are_refunded(rt: HostRuntime) -> Result<(), Fail> {
    comes_to(&rt, &customer(5), CUSTOMER)?;
    assert_eq!(rt; comes_to(&rt, &customer(2), POOR)?.money, 2);
    let random = RandomCustomer {
        machine: SHOP,
        low: 2,
        high: 9,
        money: 5,
        offer: 3,
        cans: 0,
    };
    assert_eq!(rt; comes_to(&rt, &random, RANDOM)?.money, 3);
    has_names(&rt, &customer(5), "customer", &["cans", "money"]);
    has_names(&rt, &random, "random_customer", &["cans", "money"]);
    Ok(())
}

/// A depot of two trucks that bring 6 cans each. Of the letters at tick 9 two tell of births.
const DEPOT: [Birth<'static>; 2] = [
    (Why::First, 0, &[], 0, &[9], &[]),
    (
        Why::Tick,
        9,
        &[(0, 0, 6), (0, 0, 7), (5, 0, 0), (0, 1, 0)],
        2,
        &[],
        &[(0, 2)],
    ),
];

/// A refill fills its machine and retires.
const REFILL: Step<'static> = (Why::First, 0, &[], &[(1, 13, 6, 0)], &[], &[(0, 6)], true);

fn each_fills<R: Abort + AllocGlobal>(rt: &R, refills: &[Refill]) -> Result<(), Fail> {
    for refill in refills {
        comes_to(rt, refill, REFILL)?;
        has_names(rt, refill, "refill", &["cans"]);
    }
    Ok(())
}

#[test]
fn a_depot_bears_refills(rt: HostRuntime) -> Result<(), Fail> {
    let mut depot = Depot {
        machine: SHOP,
        at: 9,
        trucks: 2,
        cans: 6,
        born: 0,
    };
    for birth in &DEPOT {
        let (why, tick, told, ..) = *birth;
        let inbox = letters(rt.alloc(), told)?;
        let bearing = depot.bear(rt.alloc(), &at(tick), &event(why, inbox.as_slice()))?;
        let (state, refills) = bears(&rt, bearing, *birth)?;
        each_fills(&rt, refills.as_slice())?;
        depot = state;
    }
    assert_eq!(rt; depot.born, 2);
    Ok(())
}
