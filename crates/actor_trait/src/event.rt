use crate::Letter;

/// What happens to an actor at a moment.
#[derive(Clone, Copy)]
pub struct Event<'a> {
    /// Whether it is the actor's first event.
    pub first: bool,
    /// Whether the actor asked for this tick: true exactly at diasca 0 of each tick after 0.
    pub spontaneous: bool,
    /// The letters that were sent to the actor at the diasca before, in inbox order.
    pub inbox: &'a [Letter],
}
