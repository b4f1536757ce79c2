// Three paths from a node to a set of nodes.
ghost use Rattle.std.specs.Prelude.{◌≡◌, ◌<◌, ℕ, false, All, IfOk};
ghost use Rattle.tomo_base.specs.Sets.{has, without};
ghost use Rattle.unit_flow.specs.Fan.{IsFan};

use crate::flow::{Flow, Widened};
use std::alloc::Global;
use tomo_base::{Graph, NoMemory, NodeSet};

/// Three paths from a node to different targets that share only the node, or the least set that fewer cut off.
#[derive(Drop)]
pub enum Fanned {
    /// The flow of the three paths.
    Three(Flow),
    /// The set that fewer than three outside neighbours cut off from the targets.
    Few(NodeSet),
}

/// Looks for three paths from a node to the targets; none is banned. At most three searches, each linear in nodes and links.
pub fn fan(alloc: Global, g: &Graph, source: u32, targets: &NodeSet) -> Result<Fanned, NoMemory>
    requires source { source < g.now.nodes }
    requires targets { All (λ v. v < g.now.nodes) targets.now }
    requires no_target { has targets.now source ≡ false }
    ensures { IfOk result (IsFan g.now source targets.now) }
{
    let mut flow = Flow::new(alloc, g, source, targets, &NodeSet::new(alloc))?;
    for _ in 0..3u32 {
        if let Widened::Stuck(cut) = flow.widen(alloc, g)? {
            return Ok(Fanned::Few(cut));
        }
    }
    Ok(Fanned::Three(flow))
}

/// The other nodes of a set, as targets of paths from one of them.
pub fn others(alloc: Global, m: &NodeSet, x: u32) -> Result<NodeSet, NoMemory>
    ensures nodes { IfOk result (λ rest. (v : ℕ) → has rest v ≡ without (has m.now) x v) }
    ensures below { IfOk result (λ rest. (n : ℕ) → All (λ v. v < n) m.now → All (λ v. v < n) rest) }
{
    let mut rest = NodeSet::new(alloc);
    for &v in m.as_slice() {
        if v != x {
            rest.insert(v)?;
        }
    }
    Ok(rest)
}
