ghost use Rattle.std.specs.Prelude.{◌≡◌, ◌<◌, ◌≤◌, ◌^◌, ◌-◌, ◌++◌, length, replicate, IfOk, OnOk};
ghost use Rattle.sim_top.specs.Commands.Plan.{actor_line, actor_lines, node_line, parent_text, plan_answer, tree_text};
ghost use Rattle.sim_top.specs.Statuses.{IsEnding};
ghost use Rattle.sim_top.specs.Tasks.{Gives, answer_by, reads_scenario};
ghost use Rattle.manager_tree.specs.Shape.{node_count};

use crate::answer::{Answer, AnswerFault};
use crate::reading::read_scenario;
use crate::text::{add, add_number};
use manager_tree::Tree;
use placement::{Loads, Plan};
use quiescence::Rounds;
use scenario::{AnyActor, Scenario};
use sim_base::{ActorId, Items, ManagerId, Memory, Name, NodeId, Status};
use sim_model::Start;
use std::alloc::Global;

fn add_actor(text: &mut Vec<u8>, id: ActorId, name: &Name, manager: ManagerId) -> Result<(), Memory>
    ensures { OnOk result (text.new.items ≡ text.old.items ++ actor_line id.0 name.now manager.0) }
{
    add(text, b"actor,")?;
    add_number(text, u64::from(id.0))?;
    add(text, b",")?;
    add(text, name.as_bytes())?;
    add(text, b",")?;
    add_number(text, u64::from(manager.0))?;
    add(text, b"\n")
}

/// Adds a line for each initial actor, which is placed and counted.
fn add_actors(text: &mut Vec<u8>, plan: &Plan, actors: &[Start<AnyActor>]) -> Result<(), Memory>
    requires { length actors.now < 2 ^ 32 - 1 }
    ensures { OnOk result (text.new.items ≡ text.old.items ++ actor_lines plan.now.policy (replicate plan.now.managers 0) 1 actors.now) }
{
    let mut loads = Loads::none(plan.managers);
    let mut id = 1;
    for actor in actors {
        let manager = loads.place(plan.policy, ActorId(id), &actor.name);
        add_actor(text, ActorId(id), &actor.name, manager)?;
        id += 1;
    }
    Ok(())
}

fn add_parent(text: &mut Vec<u8>, tree: &Tree, node: NodeId) -> Result<(), Memory>
    requires { node.0 < node_count tree.now }
    ensures { OnOk result (text.new.items ≡ text.old.items ++ parent_text tree.now node.0) }
{
    match tree.parent(node) {
        Some(parent) => add_number(text, u64::from(parent.0)),
        None => add(text, b"-"),
    }
}

fn add_node(text: &mut Vec<u8>, tree: &Tree, node: NodeId) -> Result<(), Memory>
    requires { node.0 < node_count tree.now }
    ensures { OnOk result (text.new.items ≡ text.old.items ++ node_line tree.now node.0) }
{
    add(text, b"node,")?;
    add_number(text, u64::from(node.0))?;
    add(text, b",")?;
    add_number(text, u64::from(tree.level(node)))?;
    add(text, b",")?;
    add_parent(text, tree, node)?;
    add(text, b"\n")
}

/// Adds a line for each node, from the first leaf to the root.
fn add_tree(text: &mut Vec<u8>, tree: &Tree) -> Result<(), Memory>
    ensures { OnOk result (text.new.items ≡ text.old.items ++ tree_text tree.now) }
{
    for node in 0..tree.nodes() {
        add_node(text, tree, NodeId(node))?;
    }
    Ok(())
}

/// The text of a plan: where each initial actor is placed, and the tree of the managers.
#[tactic(auto, unfolding(crate::specs::Commands::Plan::plan_answer))]
fn plan_of(alloc: Global, scenario: &Scenario, plan: &Plan) -> Result<Answer, Memory>
    ensures value { IfOk result (λ a. a ≡ plan_answer plan.now scenario.now) }
    ensures ending { IfOk result (λ a. IsEnding a.status) }
{
    let tree = Tree::of(alloc, plan.managers, plan.fanout)?;
    let mut text = Vec::new(alloc);
    add_actors(&mut text, plan, scenario.setup.actors.as_slice())?;
    add_tree(&mut text, &tree)?;
    Ok(Answer {
        text: Items::of(text),
        status: Status::Done,
        rounds: Rounds::new(),
    })
}

/// Where each initial actor of the scenario that was read is placed, and the tree of the managers.
pub(crate) fn reply(alloc: Global, bytes: Items<u8>, plan: &Plan) -> Result<Answer, AnswerFault>
    ensures value { Gives result (answer_by (reads_scenario (plan_answer plan.now)) bytes) }
    ensures ending { IfOk result (λ a. IsEnding a.status) }
{
    let scenario = read_scenario(alloc, bytes)?;
    Ok(plan_of(alloc, &scenario, plan)?)
}
