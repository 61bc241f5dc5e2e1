/// What became of the moment that a world entered last.
#[derive(Clone, Copy, Debug, PartialEq, Eq)]
pub enum Phase {
    /// No moment was entered yet.
    Opening,
    /// It is entered, and not yet closed.
    Entered,
    /// It is closed.
    Closed,
    /// Memory was wanted while it was entered or closed: the world stands between two moments, and is
    /// used no further.
    Torn,
}
