// That the public data of this crate can be moved to another thread and, but for a hand, lent to one.
use crate::{After, Claim, Closed, Hand, Round, Rounds, Turn, Unfinished};

fn is_moved<T: Send>() {}

fn crosses_threads<T: Send + Sync>() {}

fn rounds_cross_threads() {
    is_moved::<Hand>();
    crosses_threads::<Round>();
    crosses_threads::<(Claim, Turn, After)>();
    crosses_threads::<(Closed, Unfinished)>();
    crosses_threads::<Rounds>();
}
