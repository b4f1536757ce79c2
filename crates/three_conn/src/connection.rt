// Whether a graph is three-connected.
ghost use Rattle.std.specs.Prelude.{◌≡◌, ◌<◌, ◌≤◌, ◌||◌, ◌==◌, ℕ, All, length, IfOk};
ghost use Rattle.std.specs.List.Sorted.{IsStrictlyIncreasing};
ghost use Rattle.tomo_base.specs.Limits.{graph_node_limit};
ghost use Rattle.tomo_base.specs.Sets.{has};
ghost use Rattle.three_conn.specs.Answers.{IsConn};

use crate::probing::{other, seek};
use std::alloc::Global;
use tomo_base::{Graph, NoMemory, NodeSet};

/// Whether a graph is three-connected.
#[derive(Drop)]
pub enum Conn {
    /// It is.
    Yes,
    /// It has fewer than four nodes.
    Few,
    /// At most two nodes, in ascending order, without which the graph is not connected.
    Cut(NodeSet),
}

// No graph of fewer nodes is three-connected.
const FEWEST: u32 = 4;

/// Tells whether a graph is three-connected: `Few` exactly where it has fewer than four nodes, `Yes` exactly where it is, and else `Cut`
/// with at most two nodes without which it is not connected. A way of its own: a node with the most neighbours is tried with each other, by
/// gathering the nodes that no single node parts from a second one in the graph without it; then nodes that no two others part from it are
/// gathered one by one, each where three ways lead to those gathered. At most two short searches for each node, which stop at the second
/// or third gathered node: on networks that are no narrow strips these look at each link a few times in all.
pub fn three_connected(alloc: Global, g: &Graph) -> Result<Conn, NoMemory>
    ensures { IfOk result (IsConn g.now) }
{
    let n = g.nodes();
    if n < FEWEST {
        return Ok(Conn::Few);
    }
    let nodes = vec![in alloc; true; n as usize]?;
    let first = busiest(g);
    let second = other(g, &nodes, first);
    match seek(alloc, g, &nodes, first, second)? {
        None => Ok(Conn::Yes),
        Some(parting) => Ok(Conn::Cut(pair(alloc, n, parting.first, parting.second)?)),
    }
}

// The set of two numbers, as far as they are below n.
fn pair(alloc: Global, n: u32, c: u32, d: u32) -> Result<NodeSet, NoMemory>
    requires few { n ≤ graph_node_limit }
    ensures size { IfOk result (λ s. length s ≤ 2) }
    ensures below { IfOk result (λ s. All (λ v. v < n) s) }
    ensures ascending { IfOk result IsStrictlyIncreasing }
    ensures nodes { IfOk result (λ s. (v : ℕ) → v < n → has s v ≡ ((v == c) || (v == d))) }
{
    let mut set = NodeSet::new(alloc);
    if c < n {
        set.insert(c)?;
    }
    if d < n {
        set.insert(d)?;
    }
    Ok(set)
}

// A node with the most neighbours.
fn busiest(g: &Graph) -> u32
    requires { 1 ≤ g.now.nodes }
    ensures { result < g.now.nodes }
{
    let mut most = 0;
    for v in 1..g.nodes() {
        if g.hops(v).len() > g.hops(most).len() {
            most = v;
        }
    }
    most
}
