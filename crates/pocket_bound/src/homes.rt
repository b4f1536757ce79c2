// The homes of monitors.
ghost use Rattle.std.specs.Prelude.{◌<◌, ◌≤◌, All, IfOk, IsTrue};
ghost use Rattle.tomo_base.specs.BadParts.{NoBadPart};
ghost use Rattle.tomo_base.specs.Limits.{graph_node_limit};
ghost use Rattle.tomo_base.specs.Network.{IsGraph};
ghost use Rattle.tomo_base.specs.Pockets.{IsHome};
ghost use Rattle.tomo_base.specs.Sets.{has, without};

use std::alloc::Global;
use tomo_base::{Graph, NoMemory, NodeSet};
use unit_flow::{Fanned, fan, others};

/// The home of a monitor that cannot be left out. At most three searches, each linear in nodes and links.
pub fn home(alloc: Global, g: &Graph, m: &NodeSet, x: u32) -> Result<NodeSet, NoMemory>
    requires graph { IsGraph g.now }
    requires few { g.now.nodes ≤ graph_node_limit }
    requires good { NoBadPart g.now (has m.now) }
    requires nodes { All (λ v. v < g.now.nodes) m.now }
    requires node { x < g.now.nodes }
    requires member { IsTrue (has m.now x) }
    requires kept { NoBadPart g.now (without (has m.now) x) → ⊥ }
    ensures home { IfOk result (λ home. IsHome g.now (has m.now) x (has home)) }
    ensures nodes { IfOk result (λ home. All (λ v. v < g.now.nodes) home) }
{
    if g.hops(x).len() < 3 {
        let mut alone = NodeSet::new(alloc);
        alone.insert(x)?;
        return Ok(alone);
    }
    let rest = others(alloc, m, x)?;
    match fan(alloc, g, x, &rest)? {
        Fanned::Three(_) => unreachable!(),
        Fanned::Few(home) => Ok(home),
    }
}
