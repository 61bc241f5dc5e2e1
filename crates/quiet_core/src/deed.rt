/// What one hand does by one atomic operation on one word. Managers and nodes are given by their
/// numbers, `m`, `to` and `node`. An actor of a manager is given by its place `i`, from 0, among those
/// that are scheduled there.
#[derive(Clone, Copy, Debug, PartialEq, Eq)]
pub enum Deed {
    /// Takes the next actor of the manager `m`.
    Claim { m: u32 },
    /// Announces `n` letters, 1 to 1,024, of the claimed actor `i`.
    Raise { m: u32, i: u32, n: u32 },
    /// Issues `n` of the announced letters to the actors of the manager `to`.
    Post { m: u32, i: u32, to: u32, n: u32 },
    /// Reports the claimed actor `i`.
    Done { m: u32, i: u32 },
    /// Tries to become the one who collects the letters to the actors of `to`.
    Collect { to: u32 },
    /// Learns how many letters were issued from `m` to `to`.
    Look { m: u32, to: u32 },
    /// Acknowledges `n` letters from `m` to `to`.
    Ack { m: u32, to: u32, n: u64 },
    /// Passes the duty at a node on to its parent.
    Climb { node: u32 },
}
