// Whether the recipes of a plan are tied: along each path they add up to twice the path.
ghost use Rattle.std.specs.Prelude.{◌≡◌, ◌<◌, ◌^◌, ◌==◌, ◌∷◌, ◌+ℤ◌, [], ℕ, pos, if◌then◌else◌, length, All, IfOk, IfSome, IsTrue, slice_index_or};
ghost use Rattle.tomo_base.specs.Network.{linked};
ghost use Rattle.tomo_base.specs.Sets.{has};
ghost use Rattle.tomo_base.specs.Walks.{IsWalk};
ghost use Rattle.plan_form.specs.Building.{sum_at};
ghost use Rattle.plan_form.specs.Good.{AreGoodPaths, AreGoodRecipes};
ghost use Rattle.plan_form.specs.Tied.{recipe_between, terms_along, AreTied};
ghost use Rattle.link_solver.specs.Tally.{other, others, GrewBy};

use plan_form::Plan;
use simple_path::{Recipe, Recipes, Term};
use std::alloc::Global;
use tomo_base::{Graph, NoMemory};

/// The coefficients of a path, added up.
#[derive(Clone, Copy)]
pub struct Sum {
    pub value: i64,
}

// The sum with one coefficient more, where it fits.
fn plus(sum: Sum, term: Term) -> Option<Sum>
    ensures { IfSome result (λ s. s ≡ record { value = sum.value +ℤ term.coef }) }
{
    let value = sum.value.checked_add(i64::from(term.coef))?;
    Some(Sum { value })
}

// 1 for a sum other than 0.
fn one_if_other(sum: Sum) -> usize
    ensures { result ≡ other sum }
{
    if sum.value == 0 { 0 } else { 1 }
}

// Adds a coefficient to the sum of its path. `count` is how many sums are not 0, and so is the result. None where the sum is too large.
fn add_term(sums: &mut [Sum], count: usize, term: Term) -> Option<usize>
    requires place { term.path < length sums.old }
    requires few { length sums.old < 2 ^ 32 }
    requires count { count ≡ others sums.old }
    ensures length { length sums.new ≡ length sums.old }
    ensures count { IfSome result (λ n. n ≡ others sums.new) }
    ensures sums { IfSome result (λ n. GrewBy sums.old sums.new (term ∷ [])) }
{
    let before = sums[term.path as usize];
    let after = plus(before, term)?;
    sums[term.path as usize] = after;
    Some(count - one_if_other(before) + one_if_other(after))
}

// Adds the terms of a recipe.
fn add_terms(sums: &mut [Sum], count: usize, terms: &[Term]) -> Option<usize>
    requires names { All (λ t. t.path < length sums.old) terms.now }
    requires few { length sums.old < 2 ^ 32 }
    requires count { count ≡ others sums.old }
    ensures length { length sums.new ≡ length sums.old }
    ensures count { IfSome result (λ n. n ≡ others sums.new) }
    ensures sums { IfSome result (λ n. GrewBy sums.old sums.new terms.now) }
{
    let mut count = count;
    for term in terms {
        count = add_term(sums, count, *term)?;
    }
    Some(count)
}

// The recipe of the link between two nodes.
fn recipe_of<'a>(g: &Graph, recipes: &'a Recipes, a: u32, b: u32) -> &'a Recipe
    requires linked { IsTrue (linked g.now a b) }
    requires one_each { length recipes.now ≡ length g.now.links }
    ensures { result.now ≡ recipe_between g.now.links recipes.now a b }
{
    // The ends of a link are nodes.
    let _nodes = g.nodes();
    match g.between(a, b) {
        Some(link) => recipes.at(link),
        None => unreachable!(),
    }
}

// Adds the recipes of the links of a path.
fn add_along(
    g: &Graph,
    recipes: &Recipes,
    path: &[u32],
    sums: &mut [Sum],
    count: usize,
) -> Option<usize>
    requires walk { IsWalk g.now path.now }
    requires one_each { length recipes.now ≡ length g.now.links }
    requires names { (i : ℕ) → All (λ t. t.path < length sums.old) (slice_index_or recipes.now i []) }
    requires few { length sums.old < 2 ^ 32 }
    requires count { count ≡ others sums.old }
    ensures length { length sums.new ≡ length sums.old }
    ensures count { IfSome result (λ n. n ≡ others sums.new) }
    ensures sums { IfSome result (λ n. GrewBy sums.old sums.new (terms_along g.now.links recipes.now path.now)) }
{
    let [first, rest @ ..] = path else {
        return Some(count);
    };
    let mut from = *first;
    let mut count = count;
    for &node in rest {
        let recipe = recipe_of(g, recipes, from, node);
        count = add_terms(sums, count, recipe.terms())?;
        from = node;
    }
    Some(count)
}

// Whether the recipes of the links of a path add up to twice the path. All sums are 0 before, and again after a yes.
fn is_tied(g: &Graph, recipes: &Recipes, path: &[u32], number: u32, sums: &mut [Sum]) -> bool
    requires walk { IsWalk g.now path.now }
    requires one_each { length recipes.now ≡ length g.now.links }
    requires names { (i : ℕ) → All (λ t. t.path < length sums.old) (slice_index_or recipes.now i []) }
    requires number { number < length sums.old }
    requires few { length sums.old < 2 ^ 32 }
    requires none { others sums.old ≡ 0 }
    ensures length { length sums.new ≡ length sums.old }
    ensures none { IsTrue result → others sums.new ≡ 0 }
    ensures tied { IsTrue result → (k : ℕ) → sum_at (terms_along g.now.links recipes.now path.now) k ≡ (if k == number then pos 2 else pos 0) }
{
    let twice_less = Term {
        coef: -2,
        path: number,
    };
    let Some(count) = add_term(sums, 0, twice_less) else {
        return false;
    };
    match add_along(g, recipes, path, sums, count) {
        Some(count) => count == 0,
        None => false,
    }
}

/// Whether the recipes of a good plan are tied: along each path the recipes of its links add up to twice the path, so that in no round the
/// sums of paths disagree once each link has a delay. A yes is certain; a no may also come where coefficients add up to more than 2^63. One
/// pass over the links of all paths and the terms of their recipes.
pub fn are_tied(alloc: Global, g: &Graph, p: &Plan) -> Result<bool, NoMemory>
    requires paths { AreGoodPaths g.now (has p.now.monitors) p.now.paths }
    requires recipes { AreGoodRecipes g.now p.now.paths p.now.recipes }
    ensures { IfOk result (λ tied. IsTrue tied → AreTied g.now.links p.now.paths p.now.recipes) }
{
    let paths = p.paths();
    let mut sums = vec![in alloc; Sum { value: 0 }; paths.len() as usize]?;
    for i in 0..paths.len() {
        if !is_tied(g, p.recipes(), paths.path(i), i, &mut sums) {
            return Ok(false);
        }
    }
    Ok(true)
}
