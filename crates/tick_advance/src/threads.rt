//! What a simulation answers can be moved and lent to threads.

use crate::{Position, Progress, Step};

fn crosses_threads<T: Send + Sync>() {}

fn data_crosses_threads() {
    crosses_threads::<Position>();
    crosses_threads::<Step>();
    crosses_threads::<Progress>();
}
