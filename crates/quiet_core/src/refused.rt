/// A condition of an event.
#[derive(Clone, Copy, Debug, PartialEq, Eq)]
pub enum Condition {
    /// The hands, managers and nodes are those of the round.
    InRange,
    /// The hand has a weight of at least 1.
    HasWeight,
    /// The hand isn't collecting.
    NotCollecting,
    /// The hand hasn't found the manager exhausted.
    NotExhausted,
    /// The hand has claimed the actor and hasn't reported it.
    IsOpen,
    /// Nothing was announced for the actor.
    NotAnnounced,
    /// The amount is at least 1, and no greater than what is allowed or announced.
    Amount,
    /// All announced letters of the actor are posted.
    AllPosted,
    /// The hand collects the letters to the manager.
    Collects,
    /// The hand acknowledges no more letters than it knows of.
    Known,
    /// The hand holds a duty at the node.
    HoldsDuty,
    /// The two hands differ.
    Apart,
    /// The hand has a weight of at least 2.
    TwoWeights,
    /// The new hand has no weight.
    Weightless,
}

/// Why an event is refused: the first of its conditions that fails. For a bound `x <= y` that
/// fails, `have` is y and `need` is x; for a condition of yes or no they are 0 and 1.
#[derive(Clone, Copy, Debug, PartialEq, Eq)]
pub struct Refused {
    /// The condition that fails.
    pub condition: Condition,
    /// The greater side of the bound, which is too small; 0 for a condition of yes or no.
    pub have: u64,
    /// The lesser side of the bound, which is too great, at most the greatest `u64`; 1 for a condition
    /// of yes or no.
    pub need: u64,
}
