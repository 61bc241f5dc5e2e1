use sim_base::NodeId;

/// What a claim found.
#[derive(Clone, Copy, Debug, PartialEq, Eq)]
pub enum Claim {
    /// The hand has claimed the actor at this place among those scheduled at the manager.
    Claimed(u32),
    /// All actors of the manager were claimed before. The number is the one that the word had.
    Exhausted(u64),
}

/// Whether the hand may collect the letters to a manager's actors.
#[derive(Clone, Copy, Debug, PartialEq, Eq)]
pub enum Turn {
    /// It may: no hand did before.
    Yours,
    /// A hand does already.
    Taken,
}

/// What a hand left at the word that it made less.
#[derive(Clone, Copy, Debug, PartialEq, Eq)]
pub enum After {
    /// The word is this number, which isn't 0.
    Left(u64),
    /// The word is 0, and the hand holds the duty at this node, which it passes on by `climb`.
    Duty(NodeId),
    /// The root's word is 0, and the hand holds Root.
    Root,
}
