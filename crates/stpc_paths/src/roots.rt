// Whose path each link has.
ghost use Rattle.std.specs.Prelude.{ℕ, ◌≡◌, ◌<◌, ◌↔◌, length, IsTrue, IfOk, IfSome, IfNone};
ghost use Rattle.tomo_base.specs.Sets.{has};
ghost use Rattle.indep_trees.specs.Trees.{IsFree, parent_in, rank_in};
ghost use Rattle.stpc_paths.specs.Roots.{after, NameEachOther, Owns, IsRoot};
ghost use Rattle.stpc_paths.specs.Kept.{IsForest, monitor_in, AreRoots};

use indep_trees::IndepTrees;
use std::alloc::Global;
use tomo_base::{Graph, Link, NoMemory, NodeSet};

/// Whose path a link has: the node's path for this tree and the next one; or, without a tree, the path over the link itself, from
/// the end with the lower number.
#[derive(Clone, Copy)]
pub struct Root {
    pub node: u32,
    pub other: u32,
    pub tree: Option<u32>,
}

/// The tree after a tree, in a circle.
pub fn next_tree(tree: u32) -> u32
    requires { tree < 3 }
    ensures next { result ≡ after tree }
    ensures tree { result < 3 }
{
    if tree == 2 { 0 } else { tree + 1 }
}

/// The parent of a node that is no monitor.
pub fn parent_of(t: &IndepTrees, tree: u32, v: u32) -> u32
    requires forest { IsForest t.now }
    requires tree { tree < 3 }
    requires node { IsFree t.now.graph (monitor_in t.now) v }
    ensures parent { result ≡ parent_in t.now tree v }
    ensures node { result < t.now.graph.nodes }
{
    t.parent(tree, v)
}

/// Whether a node and its parent in a tree name each other.
pub fn name_each_other(m: &NodeSet, t: &IndepTrees, tree: u32, v: u32) -> bool
    requires forest { IsForest t.now }
    requires monitors { m.now ≡ t.now.monitors }
    requires tree { tree < 3 }
    requires node { IsFree t.now.graph (monitor_in t.now) v }
    ensures { IsTrue result ↔ NameEachOther (monitor_in t.now) (parent_in t.now) tree v }
{
    let parent = parent_of(t, tree, v);
    if m.has(parent) {
        return false;
    }
    parent_of(t, next_tree(tree), parent) == v
}

// The tree in which the link from v to w is v's own.
fn owning_tree(m: &NodeSet, t: &IndepTrees, v: u32, w: u32) -> Option<u32>
    requires forest { IsForest t.now }
    requires monitors { m.now ≡ t.now.monitors }
    requires node { v < t.now.graph.nodes }
    ensures some { IfSome result (λ i. (i < 3) × Owns (monitor_in t.now) (parent_in t.now) i v w) }
    ensures none { IfNone result ((i : ℕ) → i < 3 → Owns (monitor_in t.now) (parent_in t.now) i v w → ⊥) }
{
    if m.has(v) {
        return None;
    }
    for tree in 0..3 {
        if parent_of(t, tree, v) == w && !name_each_other(m, t, tree, v) {
            return Some(tree);
        }
    }
    None
}

// The root of a link.
fn root_of(m: &NodeSet, t: &IndepTrees, link: Link) -> Root
    requires forest { IsForest t.now }
    requires monitors { m.now ≡ t.now.monitors }
    requires first { link.a < link.b }
    requires second { link.b < t.now.graph.nodes }
    ensures { IsRoot (monitor_in t.now) (parent_in t.now) (rank_in t.now) link result }
{
    let (a, b) = (link.a, link.b);
    if let Some(tree) = owning_tree(m, t, a, b) {
        return Root {
            node: a,
            other: b,
            tree: Some(tree),
        };
    }
    if let Some(tree) = owning_tree(m, t, b, a) {
        return Root {
            node: b,
            other: a,
            tree: Some(tree),
        };
    }
    if t.number(a) < t.number(b) {
        Root {
            node: a,
            other: b,
            tree: None,
        }
    } else {
        Root {
            node: b,
            other: a,
            tree: None,
        }
    }
}

/// The roots of all links.
pub fn roots_of(
    alloc: Global,
    g: &Graph,
    m: &NodeSet,
    t: &IndepTrees,
) -> Result<Vec<Root>, NoMemory>
    requires forest { IsForest t.now }
    requires monitors { m.now ≡ t.now.monitors }
    requires graph { t.now.graph ≡ g.now }
    ensures { IfOk result (λ r. AreRoots t.now t.now.graph.links r.items) }
{
    let mut roots = Vec::new(alloc);
    for link in g.links() {
        roots.push(root_of(m, t, *link))?;
    }
    Ok(roots)
}
