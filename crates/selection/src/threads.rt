//! A selection can be moved and lent to threads.

use crate::Selection;

fn crosses_threads<T: Send + Sync>() {}

fn data_crosses_threads() {
    crosses_threads::<Selection>();
}
