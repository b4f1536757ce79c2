// The path of each link.
ghost use Rattle.std.specs.Prelude.{ℕ, ◌≡◌, ◌<◌, ◌≤◌, ◌*◌, ◌++◌, [], ◌∷◌, List, length, IfOk, OnOk, slice_index_or};
ghost use Rattle.tomo_base.specs.Limits.{graph_node_limit};
ghost use Rattle.tomo_base.specs.Search.{mark_of};
ghost use Rattle.tomo_base.specs.Sets.{has};
ghost use Rattle.simple_path.specs.Pools.{nodes_in};
ghost use Rattle.indep_trees.specs.Trees.{Climbs, IsFree, parent_in, rank_in};
ghost use Rattle.stpc_paths.specs.Roots.{tree_of, second_start, IsOwned};
ghost use Rattle.stpc_paths.specs.Kept.{IsForest, MarksMonitors, monitor_in, AreRooted, IsPathOf, ArePathsOf};

use crate::roots::{Root, next_tree, parent_of};
use indep_trees::IndepTrees;
use simple_path::PathPool;
use std::alloc::Global;
use tomo_base::{NoMemory, NodeSet};

// One mark for each node: that it is a monitor.
fn monitor_marks(alloc: Global, m: &NodeSet, nodes: u32) -> Result<Vec<bool>, NoMemory>
    ensures size { IfOk result (λ marks. length marks.items ≡ nodes) }
    ensures each { IfOk result (λ marks. (v : ℕ) → v < nodes → mark_of marks.items v ≡ has m.now v) }
{
    let mut marks = Vec::new(alloc);
    for v in 0..nodes {
        marks.push(m.has(v))?;
    }
    Ok(marks)
}

// Adds the path of a node in a tree: the node, its parent, and so on up to the first monitor.
fn climb(
    monitors: &[bool],
    t: &IndepTrees,
    nodes: u32,
    tree: u32,
    from: u32,
    out: &mut Vec<u32>,
) -> Result<(), NoMemory>
    requires forest { IsForest t.now }
    requires monitors { MarksMonitors t.now monitors.now }
    requires nodes { nodes ≡ t.now.graph.nodes }
    requires tree { tree < 3 }
    requires node { from < t.now.graph.nodes }
    ensures { OnOk result ((p : List ℕ) → Climbs (monitor_in t.now) (parent_in t.now tree) from p → out.new.items ≡ out.old.items ++ from ∷ p) }
{
    let mut node = from;
    for _ in 0..nodes {
        out.push(node)?;
        if monitors[node as usize] {
            return Ok(());
        }
        node = parent_of(t, tree, node);
    }
    unreachable!()
}

// The first tree of a path, and the node at which its second part begins.
#[derive(Clone, Copy)]
struct Start {
    tree: u32,
    second: u32,
}

// Where the path of the link with this root begins.
fn start_of(t: &IndepTrees, root: Root) -> Start
    requires forest { IsForest t.now }
    requires node { root.node < t.now.graph.nodes }
    requires other { root.other < t.now.graph.nodes }
    requires owned { IsOwned (monitor_in t.now) (parent_in t.now) (rank_in t.now) root.node root.other root.tree }
    ensures first { result.tree ≡ tree_of root.tree }
    ensures tree { result.tree < 3 }
    ensures second { result.second ≡ second_start (parent_in t.now) root.node root.other root.tree }
    ensures node { result.second < t.now.graph.nodes }
{
    match root.tree {
        Some(tree) => Start {
            tree,
            second: parent_of(t, next_tree(tree), root.node),
        },
        None => Start {
            tree: 0,
            second: root.other,
        },
    }
}

// Makes the list the path of the link with this root: up one tree from the node, turned round, and then up the next.
fn path_into(
    monitors: &[bool],
    t: &IndepTrees,
    nodes: u32,
    root: Root,
    path: &mut Vec<u32>,
) -> Result<(), NoMemory>
    requires forest { IsForest t.now }
    requires monitors { MarksMonitors t.now monitors.now }
    requires nodes { nodes ≡ t.now.graph.nodes }
    requires node { root.node < t.now.graph.nodes }
    requires other { root.other < t.now.graph.nodes }
    requires owned { IsOwned (monitor_in t.now) (parent_in t.now) (rank_in t.now) root.node root.other root.tree }
    ensures { OnOk result (IsPathOf t.now root path.new.items) }
{
    let start = start_of(t, root);
    path.clear();
    climb(monitors, t, nodes, start.tree, root.node, path)?;
    path.reverse();
    climb(
        monitors,
        t,
        nodes,
        next_tree(start.tree),
        start.second,
        path,
    )?;
    Ok(())
}

/// Puts the path of each link into an empty pool, in the order of the links.
pub fn lay_paths(
    alloc: Global,
    m: &NodeSet,
    t: &IndepTrees,
    nodes: u32,
    roots: &[Root],
    pool: &mut PathPool,
) -> Result<(), NoMemory>
    requires rooted { AreRooted t.now m.now roots.now }
    requires nodes { nodes ≡ t.now.graph.nodes }
    requires empty { pool.old ≡ [] }
    ensures { OnOk result (ArePathsOf t.now roots.now pool.new) }
{
    let monitors = monitor_marks(alloc, m, nodes)?;
    let mut path = Vec::new(alloc);
    for root in roots {
        path_into(&monitors, t, nodes, *root, &mut path)?;
        pool.add(&path)?;
    }
    Ok(())
}
