ghost use Rattle.std.specs.Prelude.{◌≡◌, IfOk};
ghost use Rattle.sim_top.specs.Commands.Help.{help_answer, help_text};
ghost use Rattle.sim_top.specs.Statuses.{IsEnding};

use crate::answer::Answer;
use quiescence::Rounds;
use sim_base::{Items, Memory, Status};
use std::alloc::Global;

/// The page, at most 80 bytes a line.
const PAGE: &str = "\
sim_cli runs discrete simulations. It reads a scenario from standard input and
writes the result to standard output.

Usage: sim_cli COMMAND [OPTION VALUE]..

Commands:
  run        run the scenario: its samples, and how it ended
  check      the scenario in its canonical form
  plan       the manager that each actor is placed at, and the managers' tree
  gen N      a summary of the run of a generated scenario of N groups, 1 to
             10000; it reads nothing
  upgrade    the scenario in format 2
  --help     this page
  --version  the name and the version

Options of run, plan and gen, in any order, each at most once:
  --workers N   threads that work: 1 to 64, else 1
  --managers N  managers that the actors are spread over: 1 to 16, else 1
  --fanout N    most children of a node in the managers' tree: 2 to 8, else 2
  --policy P    how an actor finds its manager: round (in turn, the default),
                name (by its name) or load (where the fewest actors live)
A run writes the same bytes whatever they are.

Exit codes:
  0  done                     4  the scenario is refused
  1  reading failed           5  the run ended by a fault of an actor
  2  writing failed           6  the run ended at the diasca limit
  3  the words are refused    7  want of memory
With 1, 2, 3, 4 and 7 one line on standard error says why.

Examples:
  sim_cli run <examples/soda_shop/scenario.json
  sim_cli plan --managers 3 --policy load <examples/soda_shop/scenario.json
";

fn help_text() -> &'static str
    ensures { result.now ≡ help_text }
{
    PAGE
}

/// The page of usage.
#[tactic(auto, unfolding(crate::specs::Commands::Help::help_answer))]
pub(crate) fn reply(alloc: Global) -> Result<Answer, Memory>
    ensures value { IfOk result (λ a. a ≡ help_answer) }
    ensures ending { IfOk result (λ a. IsEnding a.status) }
{
    Ok(Answer {
        text: Items::of(help_text().as_bytes().to_vec(alloc)?),
        status: Status::Done,
        rounds: Rounds::new(),
    })
}
