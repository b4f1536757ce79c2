// Whether a list of nodes is a monitor path.
ghost use Rattle.std.specs.Prelude.{◌↔◌, IsTrue, ◌≡◌};
ghost use Rattle.tomo_base.specs.Network.{linked};
ghost use Rattle.tomo_base.specs.Sets.{has};
ghost use Rattle.tomo_base.specs.Walks.{IsWalk, EndsIn, NoneTwice};
ghost use Rattle.tomo_base.specs.Identify.{IsMonitorPath};

use tomo_base::{Graph, NodeSet};

// Whether a link joins the two numbers.
fn is_link(g: &Graph, a: u32, b: u32) -> bool
    ensures { result ≡ linked g.now a b }
{
    let count = g.nodes();
    if a >= count || b >= count {
        return false;
    }
    g.between(a, b).is_some()
}

/// Whether each node of the list is linked to the next. It takes no memory.
pub fn is_walk(g: &Graph, path: &[u32]) -> bool
    ensures { IsTrue result ↔ IsWalk g.now path.now }
{
    for i in 1..path.len() {
        if !is_link(g, path[i - 1], path[i]) {
            return false;
        }
    }
    true
}

/// Whether the first and the last node of the list are in the set. It takes no memory.
pub fn ends_in(m: &NodeSet, path: &[u32]) -> bool
    ensures { IsTrue result ↔ EndsIn (has m.now) path.now }
{
    if path.is_empty() {
        return false;
    }
    m.has(path[0]) && m.has(path[path.len() - 1])
}

// Whether no node stands in the list twice.
fn none_twice(path: &[u32]) -> bool
    ensures { IsTrue result ↔ NoneTwice path.now }
{
    for i in 0..path.len() {
        if path[..i].contains(&path[i]) {
            return false;
        }
    }
    true
}

/// Whether the list is a monitor path. It takes no memory: each node is compared with those before it, so time is quadratic in
/// the path's nodes up to the first that stands twice, of which there are at most as many as the graph has, and one more.
pub fn is_monitor_path(g: &Graph, m: &NodeSet, path: &[u32]) -> bool
    ensures { IsTrue result ↔ IsMonitorPath g.now (has m.now) path.now }
{
    path.len() >= 2 && ends_in(m, path) && is_walk(g, path) && none_twice(path)
}
