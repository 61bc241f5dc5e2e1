// That a tree can be moved to another thread, and lent to one.
use crate::Tree;

fn crosses_threads<T: Send + Sync>() {}

fn trees_cross_threads() {
    crosses_threads::<Tree>();
}
