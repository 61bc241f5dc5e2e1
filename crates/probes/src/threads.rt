//! A buffer, and the sieve that keeps all, can be moved and lent to threads.

use crate::{Buffer, KeepAll};

fn crosses_threads<T: Send + Sync>() {}

fn buffers_cross_threads() {
    crosses_threads::<Buffer>();
}

fn sieves_cross_threads() {
    crosses_threads::<KeepAll>();
}
