//! The agenda can be moved and lent to threads.

use crate::WheelAgenda;

fn crosses_threads<T: Send + Sync>() {}

fn data_crosses_threads() {
    crosses_threads::<WheelAgenda>();
}
