// Paths joined of two, as terms.
ghost use Rattle.std.specs.Prelude.{◌≡◌, ◌<◌, ◌≤◌, ◌+◌, ◌^◌, ◌++◌, [], ◌∷◌, length, IfOk, OnOk, OnErr};
ghost use Rattle.simple_path.specs.Pools.{nodes_in};
ghost use Rattle.cross_links.specs.Joining.{turned_onto, term, one_term, three_terms, four_terms, Names, term_paths};
ghost use Rattle.cross_links.specs.Steps.{Longer};

use simple_path::{PathPool, Recipe, Term};
use std::alloc::{AllocError, Global};
use tomo_base::NoMemory;

// The first path turned round, and then the second.
fn joined(alloc: Global, a: &[u32], b: &[u32]) -> Result<Vec<u32>, AllocError>
    ensures { IfOk result (λ p. p.items ≡ turned_onto a.now b.now) }
{
    let mut path = a.to_vec(alloc)?;
    path.reverse();
    path.extend_from_slice(b)?;
    Ok(path)
}

// Adds a path that is joined of two, and a term that counts it.
fn add_term(
    alloc: Global,
    pool: &mut PathPool,
    recipe: &mut Recipe,
    coef: i8,
    a: &[u32],
    b: &[u32],
) -> Result<(), NoMemory>
    requires paths { length pool.old + 1 < 2 ^ 31 }
    requires nodes { nodes_in pool.old + (length a.now + length b.now) < 2 ^ 31 }
    requires terms { length recipe.old + 1 < 2 ^ 32 }
    ensures pool { OnOk result (pool.new ≡ pool.old ++ turned_onto a.now b.now ∷ []) }
    ensures recipe { OnOk result (recipe.new ≡ recipe.old ++ term coef (length pool.old) ∷ []) }
    ensures err { OnErr result (Longer pool.old pool.new) }
{
    let whole = joined(alloc, a, b)?;
    let path = pool.add(&whole)?;
    recipe.push(Term { coef, path })
}

/// The term of a link between two monitors.
pub fn one_path(alloc: Global, pool: &mut PathPool, v: u32, w: u32) -> Result<Recipe, NoMemory>
    requires few { length pool.old + 1 < 2 ^ 31 }
    requires room { nodes_in pool.old + 2 < 2 ^ 31 }
    ensures ok { IfOk result (λ r. Names pool.old pool.new r (one_term v w)) }
    ensures err { OnErr result (Longer pool.old pool.new) }
{
    let mut recipe = Recipe::new(alloc);
    add_term(alloc, pool, &mut recipe, 2, &[v], &[w])?;
    Ok(recipe)
}

/// The terms of a link from the monitor w to the first node of the paths a and b.
pub fn three_paths(
    alloc: Global,
    pool: &mut PathPool,
    w: u32,
    a: &[u32],
    b: &[u32],
) -> Result<Recipe, NoMemory>
    requires first { 1 ≤ length a.now }
    requires few { length pool.old + 3 < 2 ^ 31 }
    requires room { nodes_in pool.old + nodes_in (term_paths (three_terms w a.now b.now)) < 2 ^ 31 }
    ensures ok { IfOk result (λ r. Names pool.old pool.new r (three_terms w a.now b.now)) }
    ensures err { OnErr result (Longer pool.old pool.new) }
{
    let mut recipe = Recipe::new(alloc);
    add_term(alloc, pool, &mut recipe, 1, &[w], a)?;
    add_term(alloc, pool, &mut recipe, 1, &[w], b)?;
    add_term(alloc, pool, &mut recipe, -1, &a[1..], b)?;
    Ok(recipe)
}

/// The terms of a link from the first node of the paths a and b to that of c and d.
pub fn four_paths(
    alloc: Global,
    pool: &mut PathPool,
    a: &[u32],
    b: &[u32],
    c: &[u32],
    d: &[u32],
) -> Result<Recipe, NoMemory>
    requires first { 1 ≤ length a.now }
    requires third { 1 ≤ length c.now }
    requires few { length pool.old + 4 < 2 ^ 31 }
    requires room { nodes_in pool.old + nodes_in (term_paths (four_terms a.now b.now c.now d.now)) < 2 ^ 31 }
    ensures ok { IfOk result (λ r. Names pool.old pool.new r (four_terms a.now b.now c.now d.now)) }
    ensures err { OnErr result (Longer pool.old pool.new) }
{
    let mut recipe = Recipe::new(alloc);
    add_term(alloc, pool, &mut recipe, 1, c, a)?;
    add_term(alloc, pool, &mut recipe, 1, b, d)?;
    add_term(alloc, pool, &mut recipe, -1, &a[1..], b)?;
    add_term(alloc, pool, &mut recipe, -1, &c[1..], d)?;
    Ok(recipe)
}
