// Paths and recipes as they stand in a plan.
ghost use Rattle.std.specs.Prelude.{◌≤◌, ◌<◌, ◌^◌, length, IfOk};
ghost use Rattle.plan_form.specs.Building.{IsBuilt};
ghost use Rattle.plan_form.specs.Buildable.{IsArrangeable};

use crate::order::order_paths;
use crate::sums::rewrite_all;
use simple_path::{PathPool, Recipes};
use std::alloc::Global;
use tomo_base::NoMemory;

/// Paths in order, and recipes over them.
#[derive(Drop)]
pub struct Arranged {
    /// The paths, each with its lower end first, in lexicographic order, all different.
    pub paths: PathPool,
    /// The recipes, each with its terms by ascending path number, each path once, and no coefficient of 0.
    pub recipes: Recipes,
}

/// Paths and recipes as they stand in a plan. Each path is turned, so that its lower end comes first; the paths are sorted in
/// lexicographic order, and equal ones are kept once. Each recipe names the paths by their new numbers in ascending order; the coefficients
/// of one path are added up, and sums of 0 are left out. Time is near to the nodes of the paths and the terms of the recipes, but for the
/// sorting.
pub fn arrange(alloc: Global, pool: &PathPool, recipes: &Recipes) -> Result<Arranged, NoMemory>
    requires { IsArrangeable pool.now recipes.now }
    ensures built { IfOk result (λ a. IsBuilt pool.now recipes.now a.paths a.recipes) }
    ensures count { IfOk result (λ a. length a.paths ≤ length pool.now) }
    ensures few_paths { IfOk result (λ a. length a.paths < 2 ^ 31) }
    ensures few_recipes { IfOk result (λ a. length a.recipes < 2 ^ 32) }
{
    let ordered = order_paths(alloc, pool)?;
    let recipes = rewrite_all(alloc, recipes, &ordered.numbers)?;
    Ok(Arranged {
        paths: ordered.paths,
        recipes,
    })
}
