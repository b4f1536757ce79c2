// The recipe of a link, by which of its ends are monitors.
ghost use Rattle.std.specs.Prelude.{◌≡◌, ◌<◌, ◌≤◌, ◌+◌, ◌*◌, ◌^◌, length, All, IfOk, OnErr, IsTrue, false};
ghost use Rattle.tomo_base.specs.Network.{linked, IsGraph};
ghost use Rattle.tomo_base.specs.Sets.{has};
ghost use Rattle.tomo_base.specs.Walks.{IsConnected};
ghost use Rattle.tomo_base.specs.Identify.{Identifies};
ghost use Rattle.tomo_base.specs.BadParts.{NoBadPart};
ghost use Rattle.simple_path.specs.Pools.{nodes_in};
ghost use Rattle.cross_links.specs.CrossRecipe.{AddsRecipe, AddsRecipeBetween};
ghost use Rattle.cross_links.specs.Steps.{Longer};
ghost use Rattle.cross_links.specs.Ways.{IsPlainLink};

use crate::adding::{four_paths, one_path, three_paths};
use crate::flows::{second_ways, three_ways, two_ways};
use crate::meeting::{led_on, met_first, path_with};
use simple_path::{PathPool, Recipe};
use std::alloc::Global;
use tomo_base::{Graph, NoMemory, NodeSet};

// The recipe over the paths that were added, or want of memory.
type Added = Result<Recipe, NoMemory>;

// A link from v, which is no monitor, to the monitor w: the paths over it and on along two ways from v, less the path along both ways.
fn to_monitor(alloc: Global, g: &Graph, m: &NodeSet, v: u32, w: u32, pool: &mut PathPool) -> Added
    requires link { IsPlainLink g.now m.now v w }
    requires monitor { IsTrue (has m.now w) }
    requires few { length pool.old + 3 < 2 ^ 31 }
    requires room { nodes_in pool.old + 3 * g.now.nodes < 2 ^ 31 }
    ensures ok { IfOk result (AddsRecipeBetween g.now (has m.now) v w pool.old pool.new) }
    ensures err { OnErr result (Longer pool.old pool.new) }
{
    let ways = two_ways(alloc, g, m, v, w)?;
    three_paths(alloc, pool, w, ways.path(0), ways.path(1))
}

// A link between two nodes that are no monitors, of which each has two ways to monitors. Two paths go over the link and along one way of
// each end, so that each way is used once; less the path along both ways of v, and the path along both ways of w.
fn between_others(
    alloc: Global,
    g: &Graph,
    m: &NodeSet,
    v: u32,
    w: u32,
    pool: &mut PathPool,
) -> Added
    requires link { IsPlainLink g.now m.now v w }
    requires plain_neighbour { has m.now w ≡ false }
    requires few { length pool.old + 4 < 2 ^ 31 }
    requires room { nodes_in pool.old + 4 * g.now.nodes < 2 ^ 31 }
    ensures ok { IfOk result (AddsRecipeBetween g.now (has m.now) v w pool.old pool.new) }
    ensures err { OnErr result (Longer pool.old pool.new) }
{
    let ways = three_ways(alloc, g, m, v, w)?;
    let i = path_with(&ways, w);
    let (kept, b, c) = (ways.path(i), ways.path((i + 1) % 3), ways.path((i + 2) % 3));
    let others = second_ways(alloc, g, m, v, &kept[1..], &b[1..], &c[1..])?;
    let j = path_with(&others, kept[kept.len() - 1]);
    let (straight, way) = (others.path(j), others.path(1 - j));
    let (near, far) = met_first(b, c, way[way.len() - 1]);
    let led = led_on(alloc, way, &near[1..])?;
    four_paths(alloc, pool, near, far, straight, &led)
}

// The recipe of a link between v and w.
fn between(alloc: Global, g: &Graph, m: &NodeSet, v: u32, w: u32, pool: &mut PathPool) -> Added
    requires graph { IsGraph g.now }
    requires linked { IsTrue (linked g.now v w) }
    requires none { NoBadPart g.now (has m.now) }
    requires nodes { All (λ u. u < g.now.nodes) m.now }
    requires few { length pool.old + 4 < 2 ^ 31 }
    requires room { nodes_in pool.old + 4 * g.now.nodes < 2 ^ 31 }
    ensures ok { IfOk result (AddsRecipeBetween g.now (has m.now) v w pool.old pool.new) }
    ensures err { OnErr result (Longer pool.old pool.new) }
{
    match (m.has(v), m.has(w)) {
        (true, true) => one_path(alloc, pool, v, w),
        (false, true) => to_monitor(alloc, g, m, v, w, pool),
        (true, false) => to_monitor(alloc, g, m, w, v, pool),
        (false, false) => between_others(alloc, g, m, v, w, pool),
    }
}

/// A recipe of at most four monitor paths for a link, in the setting of Ma, He, Leung, Swami and Towsley (2013). A link between two
/// monitors is a path of its own. A link to one monitor is what two paths over it have more than the path that joins their other parts. A
/// link between two other nodes is what two paths over it have more than the two paths that join, at each end of it, their other parts.
/// The paths are added to the pool, and none has more nodes than the graph. After want of memory the pool is as before.
/// It makes at most four searches for paths. Time is linear in nodes and links, but for the logarithm of a search in an ordered set.
pub fn recipe(
    alloc: Global,
    g: &Graph,
    m: &NodeSet,
    link: u32,
    pool: &mut PathPool,
) -> Result<Recipe, NoMemory>
    requires connected { IsConnected g.now }
    requires three { 3 ≤ g.now.nodes }
    requires nodes { All (λ v. v < g.now.nodes) m.now }
    requires identifies { Identifies g.now (has m.now) }
    requires link { link < length g.now.links }
    requires few { length pool.old + 4 < 2 ^ 31 }
    requires room { nodes_in pool.old + 4 * g.now.nodes < 2 ^ 31 }
    ensures ok { IfOk result (AddsRecipe g.now (has m.now) link pool.old pool.new) }
    ensures err { OnErr result (pool.new ≡ pool.old) }
{
    let ends = g.links()[link as usize];
    let before = pool.len();
    match between(alloc, g, m, ends.a, ends.b, pool) {
        Ok(recipe) => Ok(recipe),
        Err(want) => {
            pool.cut_back(before);
            Err(want)
        }
    }
}
