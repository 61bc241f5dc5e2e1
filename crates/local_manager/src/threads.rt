//! A world can be moved and lent to threads where its actors and its agenda can.

use crate::{Domain, Phase, Span, World};
use actor_trait::Actor;
use agenda::Agenda;

fn crosses_threads<T: Send + Sync>() {}

fn data_crosses_threads<A: Actor + Send + Sync, G: Agenda + Send + Sync>() {
    crosses_threads::<World<A, G>>();
    crosses_threads::<Domain<G>>();
    crosses_threads::<Phase>();
    crosses_threads::<Span>();
}
