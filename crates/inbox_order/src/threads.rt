//! Inboxes can be moved and lent to threads.

use crate::Inboxes;

fn crosses_threads<T: Send + Sync>() {}

fn inboxes_cross_threads() {
    crosses_threads::<Inboxes>();
}
