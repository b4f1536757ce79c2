// Ways and the nodes at which they meet.
ghost use Rattle.std.specs.Prelude.{◌≡◌, ◌<◌, ◌≤◌, ℕ, [], length, All, IfOk, IsTrue, false, slice_index_or};
ghost use Rattle.std.specs.List.{list_any};
ghost use Rattle.tomo_base.specs.Limits.{graph_node_limit};
ghost use Rattle.tomo_base.specs.Sets.{has};
ghost use Rattle.cross_links.specs.Ways.{with_lists};
ghost use Rattle.cross_links.specs.Steps.{IsLedOn, IsChoice};

use simple_path::PathPool;
use std::alloc::{AllocError, Global};
use tomo_base::{NoMemory, NodeSet};
use unit_flow::marks::{mark, marked, marks};

/// The nodes of a set and of two lists, as a set.
pub fn ends_on(
    alloc: Global,
    count: u32,
    m: &NodeSet,
    b: &[u32],
    c: &[u32],
) -> Result<NodeSet, NoMemory>
    requires few { count ≤ graph_node_limit }
    requires set { All (λ v. v < count) m.now }
    requires first { All (λ v. v < count) b.now }
    requires second { All (λ v. v < count) c.now }
    ensures ends { IfOk result (λ s. (v : ℕ) → has s v ≡ with_lists (has m.now) b.now c.now v) }
{
    let mut ends = marks(alloc, count, m)?;
    mark(&mut ends, b);
    mark(&mut ends, c);
    marked(alloc, &ends)
}

/// The number of the first path on which a node lies.
pub fn path_with(paths: &PathPool, node: u32) -> u32
    requires { IsTrue (list_any (λ p. has p node) paths.now) }
    ensures inside { result < length paths.now }
    ensures holds { IsTrue (has (slice_index_or paths.now result []) node) }
    ensures first { (k : ℕ) → k < result → has (slice_index_or paths.now k []) node ≡ false }
{
    for i in 0..paths.len() {
        if paths.path(i).contains(&node) {
            return i;
        }
    }
    unreachable!()
}

/// The two paths, the second first where the node lies on it.
pub fn met_first<'a>(b: &'a [u32], c: &'a [u32], node: u32) -> (&'a [u32], &'a [u32])
    ensures { IsChoice b.now c.now node result.0.now result.1.now }
{
    if c.contains(&node) { (c, b) } else { (b, c) }
}

/// The way, led on along the path where it ends on the path.
pub fn led_on(alloc: Global, way: &[u32], path: &[u32]) -> Result<Vec<u32>, AllocError>
    requires { 1 ≤ length way.now }
    ensures { IfOk result (λ whole. IsLedOn way.now path.now whole.items) }
{
    let end = way[way.len() - 1];
    let mut whole = way.to_vec(alloc)?;
    if let Some(place) = path.iter().position(|node| *node == end) {
        whole.extend_from_slice(&path[place + 1..])?;
    }
    Ok(whole)
}
