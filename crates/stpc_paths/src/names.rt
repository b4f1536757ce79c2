// The number of the path that each node has for each tree and the next.
ghost use Rattle.std.specs.Prelude.{◌≡◌, ◌<◌, ◌≤◌, ◌+◌, ◌*◌, length, IfOk};
ghost use Rattle.tomo_base.specs.Limits.{graph_node_limit};
ghost use Rattle.indep_trees.specs.Trees.{IsFree};
ghost use Rattle.stpc_paths.specs.Kept.{IsForest, monitor_in, AreRooted, PutsName, AreNames, cell};

use crate::roots::{Root, next_tree, parent_of};
use indep_trees::IndepTrees;
use std::alloc::Global;
use tomo_base::{NoMemory, NodeSet};

/// The place of a node and a tree in a table of three columns.
pub fn cell_of(tree: u32, v: u32) -> usize
    requires tree { tree < 3 }
    requires node { v < graph_node_limit }
    ensures { result ≡ cell tree v }
{
    3 * v as usize + tree as usize
}

// Puts the name of a node's path down at the node, and at each node below it that has the same path.
fn put_name(
    m: &NodeSet,
    t: &IndepTrees,
    nodes: u32,
    tree: u32,
    from: u32,
    name: u32,
    names: &mut Vec<u32>,
)
    requires forest { IsForest t.now }
    requires monitors { m.now ≡ t.now.monitors }
    requires nodes { nodes ≡ t.now.graph.nodes }
    requires few_nodes { nodes ≤ graph_node_limit }
    requires tree { tree < 3 }
    requires node { IsFree t.now.graph (monitor_in t.now) from }
    requires size { length names.old.items ≡ 3 * t.now.graph.nodes }
    ensures { PutsName t.now tree from name names.old.items names.new.items }
{
    let mut node = from;
    for _ in 0..nodes {
        names[cell_of(tree, node)] = name;
        let below = parent_of(t, next_tree(tree), node);
        if m.has(below) {
            return;
        }
        if parent_of(t, tree, below) != node {
            return;
        }
        node = below;
    }
}

/// The names of all nodes: each root names the path of its node at all nodes that share it.
pub fn names_of(
    alloc: Global,
    m: &NodeSet,
    t: &IndepTrees,
    nodes: u32,
    roots: &[Root],
) -> Result<Vec<u32>, NoMemory>
    requires rooted { AreRooted t.now m.now roots.now }
    requires nodes { nodes ≡ t.now.graph.nodes }
    ensures { IfOk result (λ n. AreNames t.now n.items) }
{
    let mut names = vec![in alloc; 0; 3 * nodes as usize]?;
    for link in 0..roots.len() {
        let root = roots[link];
        match root.tree {
            Some(tree) => put_name(m, t, nodes, tree, root.node, link as u32, &mut names),
            None => {}
        }
    }
    Ok(names)
}
