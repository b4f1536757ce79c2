// Paths and recipes of all links.
ghost use Rattle.std.specs.Prelude.{◌≡◌, [], IfOk, OnErr};
ghost use Rattle.tomo_base.specs.Sets.{has};
ghost use Rattle.indep_trees.specs.Trees.{AreTrees};
ghost use Rattle.stpc_paths.specs.Measures.{AreTreeMeasures};

use crate::names::names_of;
use crate::paths::lay_paths;
use crate::recipes::recipes_of;
use crate::roots::roots_of;
use indep_trees::IndepTrees;
use simple_path::{PathPool, Recipes};
use std::alloc::Global;
use tomo_base::{Graph, NoMemory, NodeSet};

/// One monitor path for each link, in the order of the links, and a recipe for each link over at most seven of them, from independent
/// trees for the graph and the monitors. No path is there twice, in either direction, and the recipes of the links along a path add up
/// to twice the path. After the construction of spanning trees and paths of Ma, He, Leung, Swami and Towsley (2013).
///
/// A link between a node and a parent has a path of the node: up that tree, and up the next one. Where the two name each other, so that
/// their paths are the same, it is that of the one whose parent does not name it in the next tree. Each other link has the path over
/// itself, down the first tree and up the second. Time is linear in the nodes of all paths, but for a few
/// searches of a node among the monitors for each node and each link. After want of memory the pool is empty.
pub fn stpc(
    alloc: Global,
    g: &Graph,
    m: &NodeSet,
    t: &IndepTrees,
    pool: &mut PathPool,
) -> Result<Recipes, NoMemory>
    requires graph { t.now.graph ≡ g.now }
    requires monitors { t.now.monitors ≡ m.now }
    requires trees { AreTrees t.now }
    requires empty { pool.old ≡ [] }
    ensures ok { IfOk result (λ r. AreTreeMeasures g.now (has m.now) pool.new r) }
    ensures err { OnErr result (pool.new ≡ []) }
{
    let nodes = g.nodes();
    let _links = g.links();
    let roots = roots_of(alloc, g, m, t)?;
    let names = names_of(alloc, m, t, nodes, &roots)?;
    let recipes = recipes_of(alloc, m, t, &names, &roots)?;
    match lay_paths(alloc, m, t, nodes, &roots, pool) {
        Ok(()) => Ok(recipes),
        Err(refused) => {
            pool.cut_back(0);
            Err(refused)
        }
    }
}
