// Paths in the order of their second nodes.
ghost use Rattle.std.specs.Prelude.{◌≡◌, ◌<◌, ◌≤◌, ◌^◌, length, map, All, IfOk};
ghost use Rattle.tomo_base.specs.Walks.{NoneTwice};
ghost use Rattle.simple_path.specs.Pools.{nodes_in};
ghost use Rattle.unit_flow.specs.Flows.{second_of};
ghost use Rattle.unit_flow.specs.Order.{AreInOrder, ArePlaces};

use simple_path::PathPool;
use std::alloc::{AllocError, Global};
use tomo_base::NoMemory;

// For each node, the place of a path whose second node it is.
fn places(alloc: Global, count: u32, paths: &[Vec<u32>]) -> Result<Vec<Option<u32>>, AllocError>
    requires long { All (λ p. 2 ≤ length p.items) paths.now }
    requires inside { All (λ p. second_of p.items < count) paths.now }
    requires few { length paths.now < 2 ^ 31 }
    ensures size { IfOk result (λ xs. length xs.items ≡ count) }
    ensures places { IfOk result (λ xs. ArePlaces (map (λ p. p.items) paths.now) (length paths.now) xs.items) }
{
    let mut places: Vec<Option<u32>> = vec![in alloc; None; count as usize]?;
    for (i, path) in paths.iter().enumerate() {
        places[path[1] as usize] = Some(i as u32);
    }
    Ok(places)
}

/// The paths, by ascending second node; no two have the same. Time is linear in the nodes and in the paths' lengths.
pub fn by_second(alloc: Global, count: u32, paths: &[Vec<u32>]) -> Result<PathPool, NoMemory>
    requires long { All (λ p. 2 ≤ length p.items) paths.now }
    requires inside { All (λ p. second_of p.items < count) paths.now }
    requires differ { NoneTwice (map second_of (map (λ p. p.items) paths.now)) }
    requires few { length paths.now < 2 ^ 31 }
    requires room { nodes_in (map (λ p. p.items) paths.now) < 2 ^ 31 }
    ensures { IfOk result (AreInOrder (map (λ p. p.items) paths.now)) }
{
    let places = places(alloc, count, paths)?;
    let mut pool = PathPool::new(alloc);
    for v in 0..count {
        if let Some(i) = places[v as usize] {
            pool.add(&paths[i as usize])?;
        }
    }
    Ok(pool)
}
