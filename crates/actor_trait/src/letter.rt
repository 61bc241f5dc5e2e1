use sim_base::ActorId;

/// What a letter says: a code of its model's own, and two numbers. No other data travels between
/// actors.
#[derive(Clone, Copy, Debug, Default, PartialEq, Eq)]
pub struct Payload {
    /// What kind of letter it is; its sender's and its recipient's models agree on the codes.
    pub code: u32,
    /// The first number, whose meaning hangs on the code.
    pub a: i64,
    /// The second number, likewise.
    pub b: i64,
}

/// A letter on its way.
#[derive(Clone, Copy, Debug, PartialEq, Eq)]
pub struct Letter {
    /// Who receives it, at the diasca after the one at which it was sent.
    pub to: ActorId,
    /// Who sent it; 0 is the balancer, which tells creators of births.
    pub from: ActorId,
    /// Its place, from 0, among what its sender sent at that moment.
    pub serial: u32,
    /// What it says.
    pub payload: Payload,
}

/// What an actor sends: a letter that doesn't yet know its sender and its serial.
#[derive(Clone, Copy, Debug, Default, PartialEq, Eq)]
pub struct Parcel {
    /// Who is to receive it.
    pub to: ActorId,
    /// What it says.
    pub payload: Payload,
}
