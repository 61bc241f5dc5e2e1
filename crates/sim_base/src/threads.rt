//! Each type of data here can be moved and lent to threads.

use crate::{
    ActorId, BytesIn, BytesOut, Ending, Few, Items, ManagerId, Memory, Moment, Name, NodeId,
    NullOut, OpenGate, Put, ReadFault, Roomy, Row, Status, SteadyIn, Taken,
};

fn crosses_threads<T: Send + Sync>() {}

fn data_crosses_threads<T: Send + Sync>() {
    crosses_threads::<ActorId>();
    crosses_threads::<ManagerId>();
    crosses_threads::<NodeId>();
    crosses_threads::<Moment>();
    crosses_threads::<Ending>();
    crosses_threads::<Status>();
    crosses_threads::<Row>();
    crosses_threads::<Name>();
    crosses_threads::<Memory>();
    crosses_threads::<Few<T, 1>>();
    crosses_threads::<Items<T>>();
    crosses_threads::<Roomy<T>>();
    crosses_threads::<Taken>();
    crosses_threads::<Put>();
    crosses_threads::<ReadFault>();
    crosses_threads::<BytesIn>();
    crosses_threads::<SteadyIn>();
    crosses_threads::<BytesOut>();
    crosses_threads::<NullOut>();
    crosses_threads::<OpenGate>();
}
