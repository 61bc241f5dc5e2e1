//! The table: the fields of each kind that a scenario may name, in order.
ghost use Rattle.std.specs.Prelude.{◌≡◌, map};
ghost use Rattle.std.specs.List.{list_any};
ghost use Rattle.scenario.specs.Table.{fields_of, is_among, is_named, kind_name, kind_named, row_of};

/// The kinds that a scenario may name.
#[derive(Clone, Copy)]
pub(crate) enum Kind {
    Clock,
    Ball,
    Fuse,
    Machine,
    Customer,
    RandomCustomer,
    Refill,
    Depot,
    Road,
    Origin,
}

/// What a number is at least.
#[derive(Clone, Copy)]
pub(crate) enum Least {
    Number(u64),
    /// The value of the field before.
    Before,
}

/// What a field holds.
#[derive(Clone, Copy)]
pub(crate) enum Sort {
    /// A whole number, from the least to this one.
    Number(Least, u64),
    /// The name of an actor.
    Actor,
    /// The names of 1 to 32 actors.
    Route,
}

/// A field: its name, and what it holds.
#[derive(Clone, Copy)]
pub(crate) struct Field(pub(crate) &'static str, pub(crate) Sort);

/// The most that a tick, a period or a sum may be.
pub(crate) const MOST: u64 = 1_000_000_000;

/// The most that a price, an offer, a load of cans or an extent may be.
const MOST_CANS: u64 = 1_000_000;

const TICK: Sort = Sort::Number(Least::Number(1), MOST);

const COUNT: Sort = Sort::Number(Least::Number(0), MOST);

const PRICE: Sort = Sort::Number(Least::Number(0), MOST_CANS);

const LOAD: Sort = Sort::Number(Least::Number(1), MOST_CANS);

const LATER: Sort = Sort::Number(Least::Before, MOST);

const CODE: Sort = Sort::Number(Least::Number(1), 899);

const TRUCKS: Sort = Sort::Number(Least::Number(1), 64);

const VEHICLES: Sort = Sort::Number(Least::Number(0), 100_000);

const CLOCK: [Field; 2] = [Field("period", TICK), Field("count", COUNT)];

const BALL: [Field; 3] = [
    Field("peer", Sort::Actor),
    Field("at", TICK),
    Field("hits", COUNT),
];

const FUSE: [Field; 2] = [Field("at", COUNT), Field("code", CODE)];

const MACHINE: [Field; 3] = [
    Field("stock", PRICE),
    Field("price", PRICE),
    Field("close_at", COUNT),
];

const CUSTOMER: [Field; 4] = [
    Field("machine", Sort::Actor),
    Field("period", TICK),
    Field("money", COUNT),
    Field("offer", PRICE),
];

const RANDOM_CUSTOMER: [Field; 5] = [
    Field("machine", Sort::Actor),
    Field("low", TICK),
    Field("high", LATER),
    Field("money", COUNT),
    Field("offer", PRICE),
];

const REFILL: [Field; 2] = [Field("machine", Sort::Actor), Field("cans", LOAD)];

const DEPOT: [Field; 4] = [
    Field("machine", Sort::Actor),
    Field("at", TICK),
    Field("trucks", TRUCKS),
    Field("cans", LOAD),
];

const ROAD: [Field; 2] = [Field("length", LOAD), Field("room", LOAD)];

const ORIGIN: [Field; 3] = [
    Field("route", Sort::Route),
    Field("period", TICK),
    Field("count", VEHICLES),
];

/// The fields of a kind.
pub(crate) fn fields_of(kind: Kind) -> &'static [Field]
    ensures { map row_of result.now ≡ fields_of kind }
{
    match kind {
        Kind::Clock => &CLOCK,
        Kind::Ball => &BALL,
        Kind::Fuse => &FUSE,
        Kind::Machine => &MACHINE,
        Kind::Customer => &CUSTOMER,
        Kind::RandomCustomer => &RANDOM_CUSTOMER,
        Kind::Refill => &REFILL,
        Kind::Depot => &DEPOT,
        Kind::Road => &ROAD,
        Kind::Origin => &ORIGIN,
    }
}

/// The name of a kind.
pub(crate) fn kind_name(kind: Kind) -> &'static str
    ensures { result.now ≡ kind_name kind }
{
    match kind {
        Kind::Clock => "clock",
        Kind::Ball => "ball",
        Kind::Fuse => "fuse",
        Kind::Machine => "machine",
        Kind::Customer => "customer",
        Kind::RandomCustomer => "random_customer",
        Kind::Refill => "refill",
        Kind::Depot => "depot",
        Kind::Road => "road",
        Kind::Origin => "origin",
    }
}

/// The kind of a name.
pub(crate) fn kind_named(text: &str) -> Option<Kind>
    ensures { result ≡ kind_named text.now }
{
    if text == "clock" {
        Some(Kind::Clock)
    } else if text == "ball" {
        Some(Kind::Ball)
    } else if text == "fuse" {
        Some(Kind::Fuse)
    } else if text == "machine" {
        Some(Kind::Machine)
    } else if text == "customer" {
        Some(Kind::Customer)
    } else if text == "random_customer" {
        Some(Kind::RandomCustomer)
    } else if text == "refill" {
        Some(Kind::Refill)
    } else if text == "depot" {
        Some(Kind::Depot)
    } else if text == "road" {
        Some(Kind::Road)
    } else if text == "origin" {
        Some(Kind::Origin)
    } else {
        None
    }
}

/// Whether this is the field's name.
fn is_named(field: &Field, key: &str) -> bool
    ensures { result ≡ is_named key.now field.now }
{
    key == field.0
}

fn is_any(fields: &[Field], key: &str) -> bool
    ensures { result ≡ list_any (is_named key.now) fields.now }
{
    fields.iter().any(|field| is_named(field, key))
}

/// Whether a field is one of these.
pub(crate) fn is_among(fields: &[Field], key: &str) -> bool
    ensures { result ≡ is_among (map row_of fields.now) key.now }
{
    is_any(fields, key)
}
