ghost use Rattle.std.specs.Prelude.{◌≡◌, IfOk};

use sim_base::{ActorId, Memory};
use std::alloc::Global;

/// A copy of a list of ids in one block, with room for so many more.
pub(crate) fn copy_ids(alloc: Global, ids: &[ActorId], more: usize) -> Result<Vec<ActorId>, Memory>
    ensures { IfOk result (λ copy. copy.items ≡ ids.now) }
{
    let mut copy = Vec::with_capacity(alloc, ids.len().saturating_add(more))?;
    copy.extend_from_slice(ids)?;
    Ok(copy)
}
