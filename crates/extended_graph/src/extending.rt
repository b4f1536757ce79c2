// The graph with two further nodes.
ghost use Rattle.std.specs.Prelude.{◌≡◌, ◌<◌, ◌≤◌, ◌+◌, ◌*◌, All, length, IfOk};
ghost use Rattle.tomo_base.specs.Limits.{graph_link_limit, graph_node_limit};
ghost use Rattle.tomo_base.specs.Cuts.{extended};

use std::alloc::Global;
use tomo_base::{Graph, GraphFault, Link, NoMemory, NodeSet};

/// The graph with two further nodes, each linked to every monitor: its links come first, then for each monitor, ascending, the link to the
/// one and the link to the other. Linear in nodes and links. After Ma, He, Leung, Swami and Towsley (2013).
pub fn extend(alloc: Global, g: &Graph, m: &NodeSet) -> Result<Graph, NoMemory>
    requires nodes { All (λ v. v < g.now.nodes) m.now }
    requires few_nodes { g.now.nodes + 2 ≤ graph_node_limit }
    requires few_links { length g.now.links + 2 * length m.now ≤ graph_link_limit }
    ensures { IfOk result (λ e. e ≡ extended g.now m.now) }
{
    let n = g.nodes();
    let mut links = g.links().to_vec(alloc)?;
    for &v in m.as_slice() {
        links.push(Link { a: v, b: n })?;
        links.push(Link { a: v, b: n + 1 })?;
    }
    match Graph::new(alloc, n + 2, &links) {
        Ok(graph) => Ok(graph),
        Err(fault) => match fault {
            GraphFault::NoMemory => Err(NoMemory),
            _ => unreachable!(),
        },
    }
}
