use sim_base::Gate;

/// How a hand goes from claim to claim: through the gate.
#[derive(Drop)]
pub(crate) struct Pace<'a, T: Gate> {
    gate: &'a T,
    number: u32,
    turns: u64,
}

impl<'a, T: Gate> Pace<'a, T> {
    /// The pace of the hand of this number, which has claimed nothing.
    pub fn new(gate: &'a T, number: u32) -> Pace<'a, T> {
        Pace {
            gate,
            number,
            turns: 0,
        }
    }

    /// Passes the gate before the next claim.
    pub fn pass(&mut self) {
        self.gate.pass(self.number, self.turns);
        self.turns = self.turns.saturating_add(1);
    }
}
