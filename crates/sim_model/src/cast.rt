ghost use Rattle.std.specs.Prelude.{◌≡◌, ◌++◌, ◌+◌, ◌<◌, ◌^◌, length, map, IfOk, OnOk};
ghost use Rattle.sim_model.specs.Births.{member_born};
ghost use Rattle.sim_model.specs.Cast.{member, members_from};

use crate::kind::{SharedKind, kind_among};
use crate::{Newborn, Start};
use actor_trait::Actor;
use sim_base::{ActorId, Memory, Name};
use std::alloc::Global;

/// An actor that was ever in a run: its number, its name, and its kind with the names of its probes.
#[derive(Drop)]
pub struct Member {
    /// Its number.
    pub id: ActorId,
    /// Its name.
    pub name: Name,
    /// Its kind.
    pub kind: SharedKind,
}

impl Member {
    /// An equal member. It takes no memory; Err comes only where 2^63 share the kind.
    pub fn copy(&self) -> Result<Member, Memory>
        ensures { IfOk result (λ copy. copy ≡ self.now) }
    {
        Ok(Member {
            id: self.id,
            name: self.name,
            kind: self.kind.share()?,
        })
    }
}

/// The initial actor that joins these with this number.
fn member_of<A: Actor>(
    alloc: Global,
    cast: &[Member],
    id: ActorId,
    start: &Start<A>,
) -> Result<Member, Memory>
    ensures { IfOk result (λ m. m ≡ member A.meaning id start.now) }
{
    Ok(Member {
        id,
        name: start.name,
        kind: kind_among(alloc, cast, &start.state)?,
    })
}

/// The cast of a run that begins: the initial actors, numbered from 1. Err is want of memory.
pub fn opening_cast<A: Actor>(alloc: Global, starts: &[Start<A>]) -> Result<Vec<Member>, Memory>
    requires { length starts.now + 1 < 2 ^ 32 }
    ensures { IfOk result (λ cast. cast.items ≡ members_from A.meaning 1 starts.now) }
{
    let mut cast = Vec::with_capacity(alloc, starts.len())?;
    let mut next = 1;
    for start in starts {
        let member = member_of(alloc, &cast, ActorId(next), start)?;
        cast.push(member)?;
        next += 1;
    }
    Ok(cast)
}

/// The newborn join the cast. Err is want of memory; some may have joined then.
pub fn add_members<A: Actor>(
    alloc: Global,
    cast: &mut Vec<Member>,
    born: &[Newborn<A>],
) -> Result<(), Memory>
    ensures { OnOk result (cast.new.items ≡ cast.old.items ++ map (member_born A.meaning) born.now) }
{
    for newborn in born {
        let kind = kind_among(alloc, cast, &newborn.state)?;
        cast.push(Member {
            id: newborn.id,
            name: newborn.name,
            kind,
        })?;
    }
    Ok(())
}

/// An equal cast. Err is want of memory.
pub fn copy_cast(alloc: Global, cast: &[Member]) -> Result<Vec<Member>, Memory>
    ensures { IfOk result (λ copies. copies.items ≡ cast.now) }
{
    let mut copies = Vec::with_capacity(alloc, cast.len())?;
    for member in cast {
        copies.push(member.copy()?)?;
    }
    Ok(copies)
}
