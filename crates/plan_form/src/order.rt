// Paths in order, and their numbers.
ghost use Rattle.std.specs.Prelude.{ℕ, ◌≤◌, ◌<◌, ◌^◌, List, length, map, Contains, IfOk};
ghost use Rattle.std.specs.List.Sorted.{IsStrictlySortedBy};
ghost use Rattle.plan_form.specs.Building.{turned};
ghost use Rattle.plan_form.specs.Order.{path_cmp};
ghost use Rattle.plan_form.specs.Steps.{IsNumberOf, AreNumbers, AreOrdered};
ghost use Rattle.tomo_base.specs.SetLists.{lists_of};

use crate::copies::copy_paths;
use crate::directions::{turn_all, turn_into};
use simple_path::PathPool;
use std::alloc::Global;
use tomo_base::{NoMemory, sort_lists};

// Paths in order, and the number of each path of a pool among them.
#[derive(Drop)]
pub struct Ordered {
    pub paths: PathPool,
    pub numbers: Vec<u32>,
}

// The number of a path of the pool, turned in a buffer, among the paths in order.
fn number_of(paths: &[Vec<u32>], path: &[u32], buffer: &mut Vec<u32>) -> Result<u32, NoMemory>
    requires ascending { IsStrictlySortedBy path_cmp (lists_of paths.now) }
    requires few { length paths.now < 2 ^ 32 }
    requires member { Contains (lists_of paths.now) (turned path.now) }
    ensures { IfOk result (IsNumberOf (lists_of paths.now) path.now) }
{
    turn_into(path, buffer)?;
    match paths.binary_search(buffer) {
        Ok(place) => Ok(place as u32),
        Err(_) => unreachable!(),
    }
}

// The number of each path of the pool among the paths in order.
fn number_all(alloc: Global, paths: &[Vec<u32>], pool: &PathPool) -> Result<Vec<u32>, NoMemory>
    requires ascending { IsStrictlySortedBy path_cmp (lists_of paths.now) }
    requires few { length paths.now < 2 ^ 32 }
    requires members { (q : List ℕ) → Contains (map turned pool.now) q → Contains (lists_of paths.now) q }
    ensures { IfOk result (λ numbers. AreNumbers pool.now (lists_of paths.now) numbers.items) }
{
    let mut numbers = Vec::new(alloc);
    let mut buffer = Vec::new(alloc);
    for i in 0..pool.len() {
        numbers.push(number_of(paths, pool.path(i), &mut buffer)?)?;
    }
    Ok(numbers)
}

// The paths of the pool, turned, in lexicographic order and each once.
pub fn order_paths(alloc: Global, pool: &PathPool) -> Result<Ordered, NoMemory>
    ensures ordered { IfOk result (λ o. AreOrdered pool.now o.paths o.numbers.items) }
    ensures count { IfOk result (λ o. length o.paths ≤ length pool.now) }
    ensures few { IfOk result (λ o. length o.paths < 2 ^ 31) }
{
    let mut sorted = turn_all(alloc, pool)?;
    sort_lists(&mut sorted);
    let numbers = number_all(alloc, &sorted, pool)?;
    let paths = copy_paths(alloc, &sorted)?;
    Ok(Ordered { paths, numbers })
}
