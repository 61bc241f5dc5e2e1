use atomic_table::{Join, Play, Split, TableRule};
use quiet_core::Frame;
use std::marker::{Brand, Model, PhantomData};

/// What a seat sees: the shape of the round, and the account of its hand. No value of it is made.
pub struct Sight;

impl Model for Sight {
    ghost use Rattle.quiet_core.specs.Account.{no_actors, nobody};
    ghost use Rattle.quiescence.specs.Rule.{View};

    ghost Value = { View };

    ghost view = { λ _. record { shape = no_actors; account = nobody } };
}

/// The rule of the table: the words, and the accounts of all seats, have the balance of the core.
pub struct Balanced;

impl TableRule<(), Sight, Frame> for Balanced {
    ghost use Rattle.quiet_core.specs.Account.{blank};
    ghost use Rattle.quiescence.specs.Rule.{Kept};

    ghost holds = { Kept };

    ghost first = { λ t. record { shape = t; account = record (blank t) { weight = t.hands } } };
}

/// What is done, and in a round of what shape. Each call picks them.
pub trait Picked {
    ghost use Rattle.quiet_core.specs.Account.{Shape};
    ghost use Rattle.quiet_core.specs.declared.deed.Deed.{Deed};

    ghost shape: { Shape };

    ghost deed: { Deed };
}

impl Picked for Brand {
    ghost use Rattle.quiet_core.specs.Account.{no_actors};
    ghost use Rattle.quiet_core.specs.declared.deed.Deed.TheVariants.{Climb};

    ghost shape = { no_actors };

    ghost deed = { Climb 0 };
}

/// A deed, which is an event of the core.
pub struct Does<E: Picked> {
    of: PhantomData<E>,
}

impl<E: Picked> Play<(), Sight> for Does<E> {
    ghost use Rattle.quiescence.specs.Rule.{Plays};

    ghost then = { λ _. Plays E.shape E.deed };
}

/// A load that changes nothing, and shows that the account stands in the round.
pub struct Sees;

impl Play<(), Sight> for Sees {
    ghost use Rattle.quiescence.specs.Rule.{SeesIt};

    ghost then = { λ _ me _ me'. SeesIt me.0.shape me me' };
}

/// One unit of weight goes to a new hand, and both collect.
pub struct Halves;

impl Split<Sight> for Halves {
    ghost use Rattle.quiet_core.specs.Step.{kept_part, new_part};

    ghost left = { λ v. record v { account = kept_part v.account } };

    ghost right = { λ v. record v { account = new_part v.shape v.account } };
}

/// One unit of weight goes to a new hand, before anybody has done anything.
pub struct Deals;

impl Split<Sight> for Deals {
    ghost use Rattle.std.specs.Prelude.{◌-◌};
    ghost use Rattle.quiet_core.specs.Account.{blank};

    ghost left = { λ v. record v { account = record (blank v.shape) { weight = v.account.weight - 1 } } };

    ghost right = { λ v. record v { account = record (blank v.shape) { weight = 1 } } };
}

/// Two accounts become one, and the other is left blank.
pub struct Unites<E: Picked> {
    of: PhantomData<E>,
}

impl<E: Picked> Join<Sight> for Unites<E> {
    ghost use Rattle.quiet_core.specs.Account.{blank};
    ghost use Rattle.quiet_core.specs.Step.{united};

    ghost both = { λ v w. record v { account = united v.account w.account } };

    ghost spent = { record { shape = E.shape; account = blank E.shape } };
}
