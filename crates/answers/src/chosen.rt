// Topologies with nodes that are chosen beforehand.
ghost use Rattle.std.specs.Prelude.{◌<◌, All};
ghost use Rattle.tomo_base.specs.Sets.{has, Apart};

use topology::{Choice, Topology};

/// A topology, nodes of it that must be monitors, and others that must not.
#[derive(Drop)]
pub struct Chosen {
    pub topology: Topology,
    pub choice: Choice,
    ghost must: { All (λ v. v < topology.graph.nodes) choice.must },
    ghost not: { All (λ v. v < topology.graph.nodes) choice.not },
    ghost apart: { Apart (has choice.must) (has choice.not) },
}
