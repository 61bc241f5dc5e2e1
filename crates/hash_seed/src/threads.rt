//! Keys can be moved and lent to threads.

use crate::Key;

fn crosses_threads<T: Send + Sync>() {}

fn keys_cross_threads() {
    crosses_threads::<Key>();
}
