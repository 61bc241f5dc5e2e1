//! What keys are made of can be moved and lent to threads.

use crate::LetterName;

fn crosses_threads<T: Send + Sync>() {}

fn names_cross_threads() {
    crosses_threads::<LetterName>();
}
