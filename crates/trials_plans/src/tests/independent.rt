// Independent trees for the lowest sets of small graphs, where memory is ample.
ghost use Rattle.std.specs.Prelude.{◌≡◌, ◌<◌, ◌^◌, length, IfOk};
ghost use Rattle.topology.specs.Topology.{IsTopology};
ghost use Rattle.indep_trees.specs.Trees.{AreTrees};

use crate::tests::small::{PRISM, topology_of};
use indep_trees::{IndepTrees, trees};
use mmp_place::mmp;
use samples::STAR;
use std::alloc::Global;
use std::test::Fail;
use tomo_base::{Graph, NoMemory, NodeSet};
use topology::Topology;

/// Monitors, and trees for them.
#[derive(Drop)]
pub struct Grown {
    pub monitors: NodeSet,
    pub trees: IndepTrees,
}

/// Trees for the lowest set of a topology.
pub fn grow(alloc: Global, t: &Topology) -> Result<Grown, NoMemory>
    ensures topology { IsTopology t.now }
    ensures graph { IfOk result (λ s. s.trees.graph ≡ t.now.graph) }
    ensures monitors { IfOk result (λ s. s.trees.monitors ≡ s.monitors) }
    ensures trees { IfOk result (λ s. AreTrees s.trees) }
{
    let g = t.graph();
    let monitors = mmp(alloc, g)?;
    let trees = trees(alloc, g, &monitors)?;
    Ok(Grown { monitors, trees })
}

// The three parents of a node, if it is no monitor.
fn parents(g: &Graph, grown: &Grown, v: u32) -> Option<[u32; 3]>
    requires graph { grown.now.trees.graph ≡ g.now }
    requires monitors { grown.now.trees.monitors ≡ grown.now.monitors }
{
    if v >= g.nodes() || grown.monitors.has(v) {
        return None;
    }
    let trees = &grown.trees;
    Some([trees.parent(0, v), trees.parent(1, v), trees.parent(2, v)])
}

// Whether the nodes are three different ones, of which each is a neighbour of the node.
fn are_neighbours(g: &Graph, v: u32, nodes: [u32; 3]) -> bool {
    let count = g.nodes();
    let linked = v < count
        && nodes
            .iter()
            .all(|w| *w < count && g.between(v, *w).is_some());
    linked && nodes[0] != nodes[1] && nodes[0] != nodes[2] && nodes[1] != nodes[2]
}

// How many nodes of a topology have three neighbours for parents.
fn inner_count(alloc: Global, text: &[u8]) -> Result<u32, Fail>
    requires { length text.now < 2 ^ 31 }
{
    let t = topology_of(alloc, text)?;
    let grown = grow(alloc, &t)?;
    let g = t.graph();
    let mut count = 0u32;
    for v in 0..g.nodes() {
        if matches!(parents(g, &grown, v), Some(nodes) if are_neighbours(g, v, nodes)) {
            count = count.saturating_add(1);
        }
    }
    Ok(count)
}

#[test]
fn the_hub_of_a_star_has_three_parents(rt: HostRuntime) -> Result<(), Fail> {
    assert!(rt; inner_count(rt.alloc(), STAR)? == 1);
    Ok(())
}

#[test]
fn three_nodes_of_a_prism_have_three_parents(rt: HostRuntime) -> Result<(), Fail> {
    assert!(rt; inner_count(rt.alloc(), PRISM)? == 3);
    Ok(())
}
