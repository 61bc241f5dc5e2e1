/// What a worker passes before each of its claims. Threads share it. It has no meaning but that it
/// returns: a test holds workers at it.
pub trait Gate {
    /// `hand` is the number of the worker, `turn` the number of claims that it made before.
    fn pass(&self, hand: u32, turn: u64);
}

/// The gate that is always open.
#[derive(Clone, Copy, Debug, PartialEq, Eq)]
pub struct OpenGate;

impl Gate for OpenGate {
    fn pass(&self, _hand: u32, _turn: u64) {}
}
