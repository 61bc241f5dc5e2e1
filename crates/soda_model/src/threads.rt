//! Each type of data here can be moved and lent to threads.

use crate::{Customer, Depot, Machine, RandomCustomer, Refill};

fn crosses_threads<T: Send + Sync>() {}

fn data_crosses_threads() {
    crosses_threads::<Customer>();
    crosses_threads::<Depot>();
    crosses_threads::<Machine>();
    crosses_threads::<RandomCustomer>();
    crosses_threads::<Refill>();
}
