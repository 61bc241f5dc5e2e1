//! Each type of data here can be moved and lent to threads.

use crate::{
    Answer, Command, InputRefusal, Order, Ran, Reading, Verdict, WordsCause, WordsRefusal,
};

fn crosses_threads<T: Send + Sync>() {}

fn data_crosses_threads() {
    crosses_threads::<Answer>();
    crosses_threads::<Command>();
    crosses_threads::<InputRefusal>();
    crosses_threads::<Order>();
    crosses_threads::<Ran>();
    crosses_threads::<Reading>();
    crosses_threads::<Verdict>();
    crosses_threads::<WordsCause>();
    crosses_threads::<WordsRefusal>();
}
