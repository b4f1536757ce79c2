// Topologies with monitors.
ghost use Rattle.std.specs.Prelude.{◌<◌, All};

use tomo_base::NodeSet;
use topology::Topology;

/// A topology, and nodes of it that are monitors.
#[derive(Drop)]
pub struct Placed {
    pub topology: Topology,
    pub monitors: NodeSet,
    ghost nodes: { All (λ v. v < topology.graph.nodes) monitors },
}
