// Recipes of links of small graphs, where memory is ample.
ghost use Rattle.std.specs.Prelude.{◌≡◌, ◌<◌, ◌≤◌, ℕ, Bool, false, IsTrue, All, IfOk};
ghost use Rattle.tomo_base.specs.Sets.{has};
ghost use Rattle.tomo_base.specs.Identify.{Identifies};
ghost use Rattle.tomo_base.specs.BadParts.{IsCutOff};

use cross_links::recipe;
use samples::{FIVE_LINKED, graph_with, set_of};
use simple_path::{PathPool, Recipe};
use std::alloc::Global;
use std::test::Fail;
use tomo_base::{Graph, Link, NoMemory, NodeSet, first_apart};
use unit_flow::{Fanned, fan};

// Whether the node has three paths to monitors, so that no two nodes cut it off.
fn has_fan(alloc: Global, g: &Graph, v: u32, m: &NodeSet) -> Result<bool, NoMemory>
    requires node { v < g.now.nodes }
    requires monitors { All (λ v. v < g.now.nodes) m.now }
    requires plain { has m.now v ≡ false }
    ensures { IfOk result (λ yes. IsTrue yes → (p : ℕ → Bool) (k : ℕ) → IsCutOff g.now (has m.now) v k p → 3 ≤ k) }
{
    match fan(alloc, g, v, m)? {
        Fanned::Three(_) => Ok(true),
        Fanned::Few(_) => Ok(false),
    }
}

// Whether each other node has, so that the monitors identify every link.
fn identify(alloc: Global, g: &Graph, m: &NodeSet) -> Result<bool, NoMemory>
    requires { All (λ v. v < g.now.nodes) m.now }
    ensures { IfOk result (λ yes. IsTrue yes → Identifies g.now (has m.now)) }
{
    for v in 0..g.nodes() {
        if !m.has(v) && !has_fan(alloc, g, v, m)? {
            return Ok(false);
        }
    }
    Ok(true)
}

// How often the terms count the steps over the link.
fn counted(pool: &PathPool, recipe: &Recipe, link: Link) -> i32 {
    let mut sum = 0i32;
    for term in recipe.terms() {
        if term.path < pool.len() {
            let path = pool.path(term.path);
            for i in 1..path.len() {
                let (a, b) = (path[i - 1], path[i]);
                if (link.a == a && link.b == b) || (link.a == b && link.b == a) {
                    sum = sum.wrapping_add(term.coef as i32);
                }
            }
        }
    }
    sum
}

// Whether the recipe of the link has these coefficients, paths between monitors, and the right count at each link.
fn comes_to(
    alloc: Global,
    g: &Graph,
    monitors: &[u32],
    link: u32,
    coefs: &[i8],
) -> Result<bool, NoMemory> {
    let m = set_of(alloc, monitors)?;
    let count = g.nodes();
    let links = g.links();
    if count < 3 || link as usize >= links.len() || !m.as_slice().iter().all(|v| *v < count) {
        return Ok(false);
    }
    if first_apart(alloc, g)?.is_some() || !identify(alloc, g, &m)? {
        return Ok(false);
    }
    let mut pool = PathPool::new(alloc);
    pool.add(&[0])?;
    let recipe = recipe(alloc, g, &m, link, &mut pool)?;
    let mut right = pool.len() as usize == coefs.len() + 1;
    for (i, term) in recipe.terms().iter().enumerate() {
        right = right && i < coefs.len() && term.coef == coefs[i] && term.path as usize == i + 1;
    }
    for i in 1..pool.len() {
        let path = pool.path(i);
        right = right && path.len() > 1 && m.has(path[0]) && m.has(path[path.len() - 1]);
    }
    for (i, l) in links.iter().enumerate() {
        right = right && counted(&pool, &recipe, *l) == if i as u32 == link { 2 } else { 0 };
    }
    Ok(right)
}

// A ladder of four rungs.
const LADDER: [(u32, u32); 10] = [
    (0, 1),
    (2, 3),
    (4, 5),
    (6, 7),
    (0, 2),
    (2, 4),
    (4, 6),
    (1, 3),
    (3, 5),
    (5, 7),
];

// Two triangles, and a link between them.
const TRIANGLES: [(u32, u32); 7] = [(0, 1), (0, 2), (1, 2), (2, 3), (3, 4), (3, 5), (4, 5)];

#[test]
fn a_link_between_monitors_is_a_path(rt: HostRuntime) -> Result<(), Fail> {
    let alloc = rt.alloc();
    let g = graph_with(alloc, 4, &FIVE_LINKED[..6])?;
    for link in 0..6u32 {
        assert!(rt; comes_to(alloc, &g, &[0, 1, 2, 3], link, &[2])?);
    }
    Ok(())
}

#[test]
fn a_link_of_a_star_has_three_paths(rt: HostRuntime) -> Result<(), Fail> {
    let alloc = rt.alloc();
    let g = graph_with(alloc, 4, &FIVE_LINKED[..3])?;
    for link in 0..3u32 {
        assert!(rt; comes_to(alloc, &g, &[1, 2, 3], link, &[1, 1, -1])?);
    }
    Ok(())
}

#[test]
fn a_link_between_triangles_has_four_paths(rt: HostRuntime) -> Result<(), Fail> {
    let alloc = rt.alloc();
    let g = graph_with(alloc, 6, &TRIANGLES)?;
    let monitors = [0, 1, 4, 5];
    assert!(rt; comes_to(alloc, &g, &monitors, 3, &[1, 1, -1, -1])?);
    assert!(rt; comes_to(alloc, &g, &monitors, 5, &[1, 1, -1])?);
    Ok(())
}

#[test]
fn a_way_is_led_on_in_a_ladder(rt: HostRuntime) -> Result<(), Fail> {
    let alloc = rt.alloc();
    let g = graph_with(alloc, 8, &LADDER)?;
    for link in [1, 2, 5, 8] {
        assert!(rt; comes_to(alloc, &g, &[0, 1, 6, 7], link, &[1, 1, -1, -1])?);
    }
    Ok(())
}
