//! Each type of data here can be moved and lent to threads.

use crate::{Due, SortedAgenda};

fn crosses_threads<T: Send + Sync>() {}

fn data_crosses_threads() {
    crosses_threads::<Due>();
    crosses_threads::<SortedAgenda>();
}
