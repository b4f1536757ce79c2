// Paths and recipes for the links of a topology, with given monitors.
ghost use Rattle.std.specs.Prelude.{◌<◌, All, IfOk};
ghost use Rattle.tomo_base.specs.Sets.{has};
ghost use Rattle.tomo_base.specs.Identify.{Identifies};
ghost use Rattle.topology.specs.Topology.{IsTopology};
ghost use Rattle.stpc_paths.specs.Measures.{AreTreeMeasures};

use indep_trees::trees;
use simple_path::{PathPool, Recipes};
use std::alloc::Global;
use stpc_paths::stpc;
use tomo_base::{NoMemory, NodeSet};
use topology::Topology;

/// Monitor paths, and for each link a recipe over them.
#[derive(Drop)]
pub struct Measured {
    pub pool: PathPool,
    pub recipes: Recipes,
}

/// As many monitor paths as links, and a recipe for each link over them, from independent trees.
pub fn measure_all(alloc: Global, t: &Topology, m: &NodeSet) -> Result<Measured, NoMemory>
    requires nodes { All (λ v. v < t.now.graph.nodes) m.now }
    requires identifies { Identifies t.now.graph (has m.now) }
    ensures topology { IsTopology t.now }
    ensures measures { IfOk result (λ s. AreTreeMeasures t.now.graph (has m.now) s.pool s.recipes) }
{
    // The nodes that a set lends ascend, so they are no more than the graph has.
    let _ascending = m.as_slice();
    let g = t.graph();
    let grown = trees(alloc, g, m)?;
    let mut pool = PathPool::new(alloc);
    let recipes = stpc(alloc, g, m, &grown, &mut pool)?;
    Ok(Measured { pool, recipes })
}
