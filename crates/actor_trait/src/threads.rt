//! Each type of data here can be moved and lent to threads.

use crate::{
    Ball, Bearing, Clock, Context, Event, FaultCode, Fuse, Letter, Outcome, Parcel, Payload,
    Precedence, Sample,
};

fn crosses_threads<T: Send + Sync>() {}

fn data_crosses_threads<A: Send + Sync, B: Send + Sync>() {
    crosses_threads::<Outcome<A>>();
    crosses_threads::<Bearing<A, B>>();
    crosses_threads::<Ball>();
    crosses_threads::<Clock>();
    crosses_threads::<Context>();
    crosses_threads::<Event<'static>>();
    crosses_threads::<FaultCode>();
    crosses_threads::<Fuse>();
    crosses_threads::<Letter>();
    crosses_threads::<Parcel>();
    crosses_threads::<Payload>();
    crosses_threads::<Precedence<'static>>();
    crosses_threads::<Sample>();
}
