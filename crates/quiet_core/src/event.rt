/// One atomic step of a round: what a hand does on one word, or a move of a hand. Hands, managers and
/// nodes are given by their numbers, from 0, and an actor of a manager by its place `i` among those
/// that are scheduled there.
#[derive(Clone, Copy, Debug, PartialEq, Eq)]
pub enum CoreEvent {
    /// Takes the next actor of the manager `m`, or finds it exhausted.
    Claim {
        hand: u32,
        m: u32,
    },
    /// Announces `n` letters, 1 to 1,024, of the open actor `i` of `m`.
    Raise {
        hand: u32,
        m: u32,
        i: u32,
        n: u32,
    },
    /// Issues `n` of the announced letters of the actor `i` of `m` to the manager `to`.
    Post {
        hand: u32,
        m: u32,
        i: u32,
        to: u32,
        n: u32,
    },
    /// Reports the open actor `i` of `m`, of which nothing is left to post.
    Done {
        hand: u32,
        m: u32,
        i: u32,
    },
    /// Becomes the one who collects the letters to `to`, if nobody was.
    Collect {
        hand: u32,
        to: u32,
    },
    /// Learns how many letters were issued from `m` to `to`.
    Look {
        hand: u32,
        m: u32,
        to: u32,
    },
    /// Acknowledges `n` letters from `m` to `to`.
    Ack {
        hand: u32,
        m: u32,
        to: u32,
        n: u64,
    },
    /// Passes the duty at a node on to its parent.
    Climb {
        hand: u32,
        node: u32,
    },
    /// The hand takes in the account of `from`, which is left empty and without weight.
    Join {
        hand: u32,
        from: u32,
    },
    /// One unit of weight goes to `new`, and both hands collect from then on.
    Split {
        hand: u32,
        new: u32,
    },
}
