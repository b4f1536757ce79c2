// Paths with their lower ends first.
ghost use Rattle.std.specs.Prelude.{◌≡◌, ◌<◌, ◌^◌, IfOk, OnOk, length, map};
ghost use Rattle.simple_path.specs.Pools.{nodes_in};
ghost use Rattle.plan_form.specs.Building.{turned};
ghost use Rattle.tomo_base.specs.SetLists.{lists_of};

use simple_path::PathPool;
use std::alloc::Global;
use tomo_base::NoMemory;

// Makes the list that of the path with its lower end first.
pub fn turn_into(path: &[u32], nodes: &mut Vec<u32>) -> Result<(), NoMemory>
    ensures { OnOk result (nodes.new.items ≡ turned path.now) }
{
    nodes.clear();
    nodes.extend_from_slice(path)?;
    let len = nodes.len();
    if len > 0 && nodes[len - 1] < nodes[0] {
        nodes.reverse();
    }
    Ok(())
}

// The path with its lower end first.
fn turn(alloc: Global, path: &[u32]) -> Result<Vec<u32>, NoMemory>
    ensures { IfOk result (λ p. p.items ≡ turned path.now) }
{
    let mut nodes = Vec::new(alloc);
    turn_into(path, &mut nodes)?;
    Ok(nodes)
}

// The paths of the pool, turned.
pub fn turn_all(alloc: Global, pool: &PathPool) -> Result<Vec<Vec<u32>>, NoMemory>
    ensures paths { IfOk result (λ paths. lists_of paths.items ≡ map turned pool.now) }
    ensures few { IfOk result (λ paths. length (lists_of paths.items) < 2 ^ 31) }
    ensures few_nodes { IfOk result (λ paths. nodes_in (lists_of paths.items) < 2 ^ 31) }
{
    let mut paths = Vec::new(alloc);
    for i in 0..pool.len() {
        paths.push(turn(alloc, pool.path(i))?)?;
    }
    Ok(paths)
}
