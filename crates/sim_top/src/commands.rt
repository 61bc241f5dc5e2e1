//! The commands: one module each, of which `reply` makes the answer.

pub(crate) mod check;
pub(crate) mod generated;
pub(crate) mod help;
pub(crate) mod plan;
pub(crate) mod run;
pub(crate) mod upgrade;
pub(crate) mod version;
