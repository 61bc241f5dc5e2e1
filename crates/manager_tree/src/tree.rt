ghost use Rattle.std.specs.Prelude.{◌≡◌, ℕ, ◌+◌, ◌*◌, ◌/◌, ◌^◌, ◌<◌, ◌≤◌, ◌↔◌, ◌++◌, map, replicate, IfOk, OnOk, IfNone, IfSome, IsNone};
ghost use Rattle.std.specs.List.{Contains, range_with_len};
ghost use Rattle.manager_tree.specs.Shape.{IsTree, children_of, level_of, node_count, parent_of, root_of};
ghost use Rattle.manager_tree.specs.Index.{numbers_of};
ghost use Rattle.manager_tree.specs.Tree.{tree_over};

use sim_base::{Memory, NodeId};
use std::alloc::{AllocError, Global};
use std::marker::Model;

/// The tree of managers. Its nodes are numbered from 0: first the leaves, then each level above in
/// order, at last the root. Contracts see its number of leaves, the parent of each node but the
/// root, and the level of each node.
#[derive(Drop)]
pub struct Tree {
    leaves: u32,
    parents: Vec<u32>,
    levels: Vec<u32>,
    // Every node but the root: the children of a node stand side by side in it.
    nodes: Vec<NodeId>,
    // Where the children of a node begin, and after the last where all end.
    begins: Vec<u32>,
}

impl Model for Tree {
    ghost use Rattle.manager_tree.specs.Shape.{Shape, IsTree};
    ghost use Rattle.manager_tree.specs.Index.{IsIndex, shape_of};

    ghost Value = { Shape };

    ghost view = { shape_of };

    ghost invariant = { λ t. IsTree (shape_of t) × IsIndex (shape_of t) t.nodes.items t.begins.items };
}

// Appends the parent of each of so many nodes of a level: the nodes from `next` on.
fn push_parents(
    parents: &mut Vec<u32>,
    next: u32,
    width: u32,
    fanout: u32,
) -> Result<(), AllocError>
    requires fanout { 0 < fanout }
    requires fits { next + width < 2 ^ 32 }
    ensures { OnOk result (parents.new.items ≡ parents.old.items ++ map (λ place. next + place / fanout) (range_with_len 0 width)) }
{
    for place in 0..width {
        parents.push(next + place / fanout)?;
    }
    Ok(())
}

// Appends where the children of each of so many parents begin: every `fanout` nodes from `first` on.
fn push_begins(
    begins: &mut Vec<u32>,
    first: u32,
    parents: u32,
    fanout: u32,
) -> Result<(), AllocError>
    requires { first + parents * fanout < 2 ^ 32 }
    ensures { OnOk result (begins.new.items ≡ begins.old.items ++ map (λ place. first + place * fanout) (range_with_len 0 parents)) }
{
    for place in 0..parents {
        begins.push(first + place * fanout)?;
    }
    Ok(())
}

// The nodes below this number, in order.
fn nodes_below(alloc: Global, end: u32) -> Result<Vec<NodeId>, AllocError>
    ensures { IfOk result (λ nodes. numbers_of nodes.items ≡ range_with_len 0 end) }
{
    let mut nodes = Vec::new(alloc);
    for number in 0..end {
        nodes.push(NodeId(number))?;
    }
    Ok(nodes)
}

impl Tree {
    /// The tree over 1 to 16 leaves. A parent takes `fanout` nodes of the level below, 2 to 8, in
    /// order, and the last parent of a level takes what is left. The error is want of memory.
    pub fn of(alloc: Global, leaves: u32, fanout: u32) -> Result<Tree, Memory>
        requires least_leaves { 1 ≤ leaves }
        requires most_leaves { leaves ≤ 16 }
        requires least_fanout { 2 ≤ fanout }
        requires most_fanout { fanout ≤ 8 }
        ensures shape { IfOk result (λ tree. tree ≡ tree_over leaves fanout) }
        ensures tree { IfOk result IsTree }
    {
        let mut parents = Vec::new(alloc);
        let mut levels = Vec::new(alloc);
        let mut begins = vec![in alloc; 0; leaves as usize]?;
        let mut level = 0;
        let mut first = 0;
        let mut width = leaves;
        while width > 1 {
            let next = first + width;
            let above = width.div_ceil(fanout);
            push_parents(&mut parents, next, width, fanout)?;
            levels.resize(next as usize, level)?;
            push_begins(&mut begins, first, above, fanout)?;
            first = next;
            width = above;
            level += 1;
        }
        levels.push(level)?;
        begins.push(first)?;
        Ok(Tree {
            leaves,
            parents,
            levels,
            nodes: nodes_below(alloc, first)?,
            begins,
        })
    }

    /// How many nodes: 1 to 31.
    pub fn nodes(&self) -> u32
        ensures nodes { result ≡ node_count self.now }
        ensures tree { IsTree self.now }
    {
        self.levels.len() as u32
    }

    /// How many leaves: 1 to 16. They are the nodes from 0 on.
    pub fn leaves(&self) -> u32
        ensures leaves { result ≡ self.now.leaves }
        ensures tree { IsTree self.now }
    {
        self.leaves
    }

    /// The node above all others, which is the last.
    pub fn root(&self) -> NodeId
        ensures root { result.0 ≡ root_of self.now }
        ensures tree { IsTree self.now }
    {
        NodeId(self.parents.len() as u32)
    }

    /// The node above this one: None exactly at the root.
    pub fn parent(&self, node: NodeId) -> Option<NodeId>
        requires { node.0 < node_count self.now }
        ensures root { IsNone result ↔ (node.0 ≡ root_of self.now) }
        ensures parent { IfSome result (λ parent. parent.0 ≡ parent_of self.now node.0) }
        ensures tree { IsTree self.now }
    {
        self.parents
            .get(node.0 as usize)
            .map(|parent| NodeId(*parent))
    }

    /// The parent of each node but the root, by the number of the node.
    pub fn parents(&self) -> &[u32]
        ensures parents { result.now ≡ self.now.parents }
        ensures tree { IsTree self.now }
    {
        self.parents.as_slice()
    }

    /// The nodes whose parent this is, in ascending order without gaps; none at a leaf.
    pub fn children(&self, node: NodeId) -> &[NodeId]
        requires { node.0 < node_count self.now }
        ensures children { map (λ child. child.0) result.now ≡ children_of self.now node.0 }
        // Each node but the root is a child of its parent, and of no other node.
        ensures exactly { (child : ℕ) → Contains (children_of self.now node.0) child ↔ ((child < root_of self.now) × (parent_of self.now child ≡ node.0)) }
        ensures tree { IsTree self.now }
    {
        let at = node.0 as usize;
        let begin = self.begins[at] as usize;
        let end = self.begins[at + 1] as usize;
        &self.nodes[begin..end]
    }

    /// How many steps the node stands above the leaves: 0 at a leaf.
    pub fn level(&self, node: NodeId) -> u32
        requires { node.0 < node_count self.now }
        ensures level { result ≡ level_of self.now node.0 }
        ensures tree { IsTree self.now }
    {
        self.levels[node.0 as usize]
    }
}
