/// By what a new actor is placed among the managers.
#[derive(Clone, Copy, Debug, PartialEq, Eq)]
pub enum Policy {
    /// Managers in turn, by the actor's number.
    RoundRobin,
    /// By the sum of the bytes of its name.
    ByName,
    /// The manager with the fewest living actors, the first of them where there are several.
    LeastLoaded,
}
