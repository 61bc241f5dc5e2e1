//! Rules can be moved and lent to threads.

use crate::{Rules, RulesFault};

fn crosses_threads<T: Send + Sync>() {}

fn data_crosses_threads() {
    crosses_threads::<Rules>();
    crosses_threads::<RulesFault>();
}
