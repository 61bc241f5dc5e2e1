use manager_tree::Tree;
use sim_base::{Memory, NodeId};

#[test]
fn three_leaves_in_pairs(rt: HostRuntime) -> Result<(), Memory> {
    let tree = Tree::of(rt.alloc(), 3, 2)?;
    assert_eq!(rt; tree.leaves(), 3);
    assert_eq!(rt; tree.nodes(), 6);
    assert_eq!(rt; tree.root(), NodeId(5));
    let wants: [(u32, Option<NodeId>, &[NodeId]); 6] = [
        (0, Some(NodeId(3)), &[]),
        (0, Some(NodeId(3)), &[]),
        (0, Some(NodeId(4)), &[]),
        (1, Some(NodeId(5)), &[NodeId(0), NodeId(1)]),
        (1, Some(NodeId(5)), &[NodeId(2)]),
        (2, None, &[NodeId(3), NodeId(4)]),
    ];
    for (number, want) in wants.iter().enumerate() {
        let node = NodeId(number as u32);
        let shown = (tree.level(node), tree.parent(node), tree.children(node));
        assert!(rt; shown == *want, "node {number}");
    }
    Ok(())
}

#[test]
fn sizes(rt: HostRuntime) -> Result<(), Memory> {
    // leaves, fan-out, nodes: counted level by level
    for (leaves, fanout, nodes) in [
        (1, 2, 1),
        (2, 8, 3),
        (5, 3, 8),
        (9, 8, 12),
        (16, 2, 31),
        (16, 8, 19),
    ] {
        let tree = Tree::of(rt.alloc(), leaves, fanout)?;
        assert_eq!(rt; tree.nodes(), nodes, "{leaves} leaves by {fanout}");
        assert_eq!(rt; tree.parent(tree.root()), None);
    }
    Ok(())
}
