//! Each type of data here can be moved and lent to threads.

use crate::{AnyActor, Broken, FieldText, Place, Refusal, Scenario, ScenarioFault};

fn crosses_threads<T: Send + Sync>() {}

fn data_crosses_threads() {
    crosses_threads::<AnyActor>();
    crosses_threads::<Broken>();
    crosses_threads::<FieldText>();
    crosses_threads::<Place>();
    crosses_threads::<Refusal>();
    crosses_threads::<Scenario>();
    crosses_threads::<ScenarioFault>();
}
