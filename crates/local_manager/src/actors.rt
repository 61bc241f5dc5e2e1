ghost use Rattle.std.specs.Prelude.{◌≡◌, ◌+◌, ◌≤◌, [], length, map, OnOk};
ghost use Rattle.std.specs.List.{fold};
ghost use Rattle.agenda.specs.Dues.{without_actor};
ghost use Rattle.sim_model.specs.Whole.{Numbered};
ghost use Rattle.local_manager.specs.Directories.{AllPlaced, without_loads};
ghost use Rattle.local_manager.specs.Views.{with_newborn, with_starts};

use crate::directory::Directory;
use agenda::Agenda;
use placement::Policy;
use sim_base::{ActorId, Memory};
use sim_model::{Newborn, Start};

/// These are gone, with all that they asked for.
pub(crate) fn retire_all<G: Agenda + Drop>(directory: &mut Directory<G>, ids: &[ActorId])
    ensures { directory.new ≡ record directory.old {
      placed = without_loads directory.old.placed ids.now;
      agenda = fold (λ dues id. without_actor id dues) directory.old.agenda ids.now;
    } }
{
    for id in ids {
        directory.retire(*id);
    }
}

/// The newborn are placed, in the order of their numbers. Err is want of memory; some may be placed then.
pub(crate) fn admit_all<A, G: Agenda + Drop>(
    directory: &mut Directory<G>,
    policy: Policy,
    born: &[Newborn<A>],
) -> Result<(), Memory>
    requires numbered { Numbered (length directory.old.placed.homes + 1) (map (λ b. b.id) born.now) }
    requires room { length directory.old.placed.homes + length born.now ≤ 1000000 }
    requires idle { directory.old.scheduled ≡ [] }
    requires known { AllPlaced (λ d. d.actor) (length directory.old.placed.homes) directory.old.agenda }
    ensures { OnOk result (directory.new ≡ record directory.old { placed = with_newborn policy directory.old.placed born.now }) }
{
    for newborn in born {
        directory.admit(policy, newborn.id, &newborn.name)?;
    }
    Ok(())
}

/// The initial actors are placed, in the order of their numbers. Err is want of memory.
pub(crate) fn admit_first<A, G: Agenda + Drop>(
    directory: &mut Directory<G>,
    policy: Policy,
    starts: &[Start<A>],
) -> Result<(), Memory>
    requires first { directory.old.placed.homes ≡ [] }
    requires idle { directory.old.scheduled ≡ [] }
    requires nobody { directory.old.agenda ≡ [] }
    requires count { length starts.now ≤ 1000000 }
    ensures { OnOk result (directory.new ≡ record directory.old { placed = with_starts policy directory.old.placed 1 starts.now }) }
{
    let mut next = 1;
    for start in starts {
        directory.admit(policy, ActorId(next), &start.name)?;
        next += 1;
    }
    Ok(())
}
