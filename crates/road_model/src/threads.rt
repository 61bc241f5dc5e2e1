//! The data of this crate can be moved and lent to threads.

use crate::{Origin, Road, Vehicle};

fn crosses_threads<T: Send + Sync>() {}

fn kinds_cross_threads() {
    crosses_threads::<Origin>();
    crosses_threads::<Road>();
    crosses_threads::<Vehicle>();
}
