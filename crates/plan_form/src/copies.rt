// Parts of a plan that are copied as they are.
ghost use Rattle.std.specs.Prelude.{◌≡◌, ◌<◌, ◌^◌, length, map, All, IfOk};
ghost use Rattle.simple_path.specs.Pools.{nodes_in};
ghost use Rattle.plan_form.specs.Buildable.{as_part};
ghost use Rattle.plan_form.specs.Held.{part_of};
ghost use Rattle.plan_form.specs.Parts.{IsSmall};
ghost use Rattle.tomo_base.specs.SetLists.{lists_of};

use crate::plan::HeldPocket;
use simple_path::PathPool;
use std::alloc::Global;
use tomo_base::{NoMemory, NodeSet, Pockets, Words};
use topology::Topology;

// The names of the nodes.
pub fn copy_names(alloc: Global, t: &Topology) -> Result<Words, NoMemory>
    ensures { IfOk result (λ names. names ≡ t.now.names) }
{
    let mut names = Words::new(alloc);
    for v in 0..t.graph().nodes() {
        names.push(t.name(v))?;
    }
    Ok(names)
}

// A pocket of these nodes and this need, as a plan keeps it.
fn hold(alloc: Global, need: u32, nodes: &NodeSet) -> Result<HeldPocket, NoMemory>
    ensures part { IfOk result (λ k. part_of k ≡ record { need = need; nodes = nodes.now }) }
    ensures small { IfOk result (λ k. IsSmall k.need × All IsSmall k.nodes.items) }
{
    let nodes = nodes.as_slice().to_vec(alloc)?;
    Ok(HeldPocket { need, nodes })
}

// The pockets, as a plan keeps them.
pub fn copy_pockets(alloc: Global, pockets: &Pockets) -> Result<Vec<HeldPocket>, NoMemory>
    ensures parts { IfOk result (λ held. map part_of held.items ≡ map as_part pockets.now) }
    ensures few { IfOk result (λ held. length held.items < 2 ^ 32) }
    ensures small { IfOk result (λ held. All (λ k. IsSmall k.need × All IsSmall k.nodes.items) held.items) }
{
    let mut held = Vec::new(alloc);
    for i in 0..pockets.len() {
        let pocket = pockets.at(i);
        held.push(hold(alloc, pocket.need, &pocket.nodes)?)?;
    }
    Ok(held)
}

// The paths, as a pool.
pub fn copy_paths(alloc: Global, paths: &[Vec<u32>]) -> Result<PathPool, NoMemory>
    requires paths { length (lists_of paths.now) < 2 ^ 31 }
    requires nodes { nodes_in (lists_of paths.now) < 2 ^ 31 }
    ensures { IfOk result (λ pool. pool ≡ lists_of paths.now) }
{
    let mut pool = PathPool::new(alloc);
    for path in paths {
        pool.add(path)?;
    }
    Ok(pool)
}
