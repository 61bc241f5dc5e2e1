//! The store can be moved and lent to threads.

use crate::LetterStore;

fn crosses_threads<T: Send + Sync>() {}

fn store_crosses_threads() {
    crosses_threads::<LetterStore>();
}
