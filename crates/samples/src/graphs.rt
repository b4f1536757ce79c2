// Small graphs and small sets of nodes.
ghost use Rattle.std.specs.Prelude.{◌≤◌, length};
ghost use Rattle.tomo_base.specs.Limits.{graph_link_limit, graph_node_limit};

use std::alloc::Global;
use std::test::Fail;
use tomo_base::{Graph, Link, NoMemory, NodeSet};

/// Each two of five nodes are linked; the first three links are a star, and the first six join each two of the first four nodes.
pub const FIVE_LINKED: [(u32, u32); 10] = [
    (0, 1),
    (0, 2),
    (0, 3),
    (1, 2),
    (1, 3),
    (2, 3),
    (0, 4),
    (1, 4),
    (2, 4),
    (3, 4),
];

/// The graph of `n` nodes with a link between each of these pairs of nodes.
pub fn graph_with(alloc: Global, n: u32, pairs: &[(u32, u32)]) -> Result<Graph, Fail>
    requires few_nodes { n ≤ graph_node_limit }
    requires few_links { length pairs.now ≤ graph_link_limit }
{
    let mut links = Vec::new(alloc);
    for &(a, b) in pairs {
        links.push(Link { a, b })?;
    }
    Ok(Graph::new(alloc, n, &links)?)
}

/// The set of some of the first ten nodes.
pub fn set_of(alloc: Global, nodes: &[u32]) -> Result<NodeSet, NoMemory> {
    let mut set = NodeSet::new(alloc);
    for &node in nodes {
        set.insert(node % 10)?;
    }
    Ok(set)
}
