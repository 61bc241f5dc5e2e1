ghost use Rattle.std.specs.Prelude.{◌≡◌, true, IfOk};
ghost use Rattle.sim_model.specs.Cast.{kind_of};

use crate::Member;
use actor_trait::Actor;
use sim_base::{Items, Memory, Name};
use std::alloc::Global;
use std::marker::Model;
use std::sync::Arc;

/// How many members that joined last are asked for their kind, before it is made anew.
const NEAR: usize = 32;

/// A kind of actor.
#[derive(Drop)]
pub struct Kind {
    /// Its name.
    pub name: Name,
    /// The names of its probes, which are numbered from 0.
    pub probes: Items<Name>,
}

/// A kind that many members share, kept once for them. Contracts see the kind.
#[derive(Drop)]
pub struct SharedKind {
    kind: Arc<Kind, Global>,
}

impl Model for SharedKind {
    ghost use Rattle.std.specs.Arc.{arc_value};
    ghost use Rattle.sim_model.specs.declared.kind.Kind.{Kind};

    ghost Value = { Kind };

    ghost view = { λ s. arc_value s.kind };
}

impl SharedKind {
    /// A kind to be shared. Err is want of memory.
    pub fn new(alloc: Global, kind: Kind) -> Result<SharedKind, Memory>
        ensures { IfOk result (λ shared. shared ≡ kind) }
    {
        Ok(SharedKind {
            kind: Arc::new(alloc, kind)?,
        })
    }

    /// The same kind for one more member. It takes no memory; Err comes only where 2^63 share it.
    pub fn share(&self) -> Result<SharedKind, Memory>
        ensures { IfOk result (λ shared. shared ≡ self.now) }
    {
        Ok(SharedKind {
            kind: Arc::try_clone(&self.kind)?,
        })
    }

    /// The kind.
    pub fn get(&self) -> &Kind
        ensures { result.now ≡ self.now }
    {
        &self.kind
    }
}

fn probe_names<A: Actor>(alloc: Global, state: &A) -> Result<Items<Name>, Memory>
    ensures { IfOk result (λ names. names ≡ A.meaning.probes state.now) }
{
    let mut names = Vec::with_capacity(alloc, state.probes() as usize)?;
    for n in 0..state.probes() {
        names.push(Name::word(state.probe(n)))?;
    }
    Ok(Items::of(names))
}

/// Whether an actor's probes have these names.
fn has_probes<A: Actor>(state: &A, names: &[Name]) -> bool
    ensures { result ≡ true → names.now ≡ A.meaning.probes state.now }
{
    if names.len() != state.probes() as usize {
        return false;
    }
    for n in 0..state.probes() {
        if names[n as usize].as_bytes() != state.probe(n).as_bytes() {
            return false;
        }
    }
    true
}

/// Whether an actor is of a kind.
fn is_of<A: Actor>(state: &A, kind: &Kind) -> bool
    ensures { result ≡ true → kind.now ≡ kind_of A.meaning state.now }
{
    kind.name.as_bytes() == state.kind().as_bytes() && has_probes(state, kind.probes.as_slice())
}

/// The kind of an actor that joins these: shared with one of those who joined last, or made anew. Err is
/// want of memory.
pub(crate) fn kind_among<A: Actor>(
    alloc: Global,
    cast: &[Member],
    state: &A,
) -> Result<SharedKind, Memory>
    ensures { IfOk result (λ kind. kind ≡ kind_of A.meaning state.now) }
{
    let first = cast.len().saturating_sub(NEAR);
    for member in &cast[first..] {
        if is_of(state, member.kind.get()) {
            return member.kind.share();
        }
    }
    SharedKind::new(
        alloc,
        Kind {
            name: Name::word(state.kind()),
            probes: probe_names(alloc, state)?,
        },
    )
}
