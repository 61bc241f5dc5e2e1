// That the public data of this crate can be moved to another thread, and lent to one.
use crate::{Loads, Plan, Policy};

fn crosses_threads<T: Send + Sync>() {}

fn plans_cross_threads() {
    crosses_threads::<Policy>();
    crosses_threads::<Plan>();
    crosses_threads::<Loads>();
}
