// Flows that no set stops.
ghost use Rattle.std.specs.Prelude.{◌≡◌, ◌<◌, All, IfOk, OnOk, false};
ghost use Rattle.tomo_base.specs.Sets.{has};
ghost use Rattle.unit_flow.specs.Flows.{routing_task};
ghost use Rattle.cross_links.specs.Ways.{beside};
ghost use Rattle.cross_links.specs.Steps.{Begins, CanGrow, HasGrown};

use std::alloc::Global;
use tomo_base::{Graph, NoMemory, NodeSet};
use unit_flow::{Flow, Widened};

/// A flow without paths from a node to targets, which bans another node.
pub fn flow_beside(
    alloc: Global,
    g: &Graph,
    targets: &NodeSet,
    source: u32,
    avoided: u32,
) -> Result<Flow, NoMemory>
    requires source { source < g.now.nodes }
    requires avoided { avoided < g.now.nodes }
    requires targets { All (λ v. v < g.now.nodes) targets.now }
    requires no_target { has targets.now source ≡ false }
    requires differ { source ≡ avoided → ⊥ }
    ensures { IfOk result (Begins (beside g.now (has targets.now) source avoided)) }
{
    let _count = g.nodes();
    let mut banned = NodeSet::new(alloc);
    banned.insert(avoided)?;
    Flow::new(alloc, g, source, targets, &banned)
}

/// Makes one path more of a flow that no set stops.
pub fn grow(alloc: Global, g: &Graph, flow: &mut Flow) -> Result<(), NoMemory>
    requires graph { flow.old.graph ≡ g.now }
    requires grows { CanGrow (routing_task flow.old) flow.old.paths }
    ensures { OnOk result (HasGrown flow.old flow.new) }
{
    match flow.widen(alloc, g)? {
        Widened::More => Ok(()),
        Widened::Stuck(_) => unreachable!(),
    }
}
