//! What everything stands on: ids, moments and names, lists that contracts see as plain data, and
//! the outside, which is where bytes come from and go to.
#![tactic(auto)]

mod bytes_in;
mod bytes_out;
mod calls;
mod few;
mod gate;
mod ids;
mod items;
mod memory;
mod moment;
mod name;
mod reader_in;
mod roomy;
mod sink;
mod source;
mod status;
mod steps;
mod threads;
mod writer_out;

pub use bytes_in::{BytesIn, SteadyIn};
pub use bytes_out::{BytesOut, NullOut};
pub use few::Few;
pub use gate::{Gate, OpenGate};
pub use ids::{ActorId, ManagerId, NodeId};
pub use items::Items;
pub use memory::Memory;
pub use moment::{Ending, Moment, Row};
pub use name::Name;
pub use reader_in::{ReaderIn, StdIn};
pub use roomy::Roomy;
pub use sink::{Put, Sink, write_all_of};
pub use source::{ReadFault, Source, Taken, read_all};
pub use status::Status;
pub use steps::Steps;
pub use writer_out::{StdErr, StdOut, WriterOut};
