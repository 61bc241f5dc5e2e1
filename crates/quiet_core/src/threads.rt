// That the public data of this crate can be moved to another thread, and lent to one.
use crate::{Condition, Core, CoreEvent, Deed, Frame, Refused};

fn crosses_threads<T: Send + Sync>() {}

fn cores_cross_threads() {
    crosses_threads::<Core>();
    crosses_threads::<Frame>();
    crosses_threads::<(CoreEvent, Deed)>();
    crosses_threads::<(Condition, Refused)>();
}
