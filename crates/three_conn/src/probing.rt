// Looking for two nodes that part a set.
ghost use Rattle.std.specs.Prelude.{◌≡◌, ◌≢◌, ◌<◌, ◌≤◌, true, length, IfOk, IfSome, IfNone};
ghost use Rattle.tomo_base.specs.Sets.{has, size};
ghost use Rattle.tomo_base.specs.Walks.{IsConnectedIn};
ghost use Rattle.tomo_base.specs.Search.{mark_of};
ghost use Rattle.tomo_base.specs.Parting.{without_two, IsThreeConnectedIn};
ghost use Rattle.three_conn.specs.Parting.{IsParted, IsParting};
ghost use Rattle.three_conn.specs.Held.{IsWholeBeside, IsWholeWith};

use crate::growing::grow;
use crate::known::{Parting, Sought, begin};
use crate::marks::{all_but, first_marked, first_missed};
use crate::single::part_at_one;
use std::alloc::Global;
use tomo_base::{Graph, NoMemory, Swept, sweep};

// A side of the set without two of its nodes, where these part it.
fn side_without(
    alloc: Global,
    g: &Graph,
    nodes: &[bool],
    c: u32,
    d: u32,
) -> Result<Option<Vec<u32>>, NoMemory>
    requires marks { length nodes.now ≡ g.now.nodes }
    requires first { c < g.now.nodes }
    requires second { d < g.now.nodes }
    ensures none { IfOk result (λ o. IfNone o (IsConnectedIn g.now (without_two (mark_of nodes.now) c d))) }
    ensures side { IfOk result (λ o. IfSome o (λ side. IsParted g.now (mark_of nodes.now) (has side.items) c d)) }
{
    let _count = g.nodes();
    let free = all_but(alloc, nodes, c, d)?;
    let Some(x) = first_marked(&free) else {
        return Ok(None);
    };
    let found = sweep(alloc, g, &free, &[x])?;
    if first_missed(&free, &found.rank).is_some() {
        Ok(Some(found.order))
    } else {
        Ok(None)
    }
}

// The parting of the set by two nodes, where these part it.
fn parting_at(alloc: Global, g: &Graph, nodes: &[bool], first: u32, second: u32) -> Sought
    requires marks { length nodes.now ≡ g.now.nodes }
    requires first { first < g.now.nodes }
    requires second { second < g.now.nodes }
    ensures none { IfOk result (λ o. IfNone o (IsConnectedIn g.now (without_two (mark_of nodes.now) first second))) }
    ensures parting { IfOk result (λ o. IfSome o (IsParting g.now (mark_of nodes.now))) }
    ensures pair { IfOk result (λ o. IfSome o (λ p. (p.first ≡ first) × (p.second ≡ second))) }
{
    let _count = g.nodes();
    match side_without(alloc, g, nodes, first, second)? {
        Some(side) => Ok(Some(Parting {
            side,
            first,
            second,
        })),
        None => Ok(None),
    }
}

// Looks for two nodes other than the root that part the set: lets the nodes that are held from the root grow.
fn beside(alloc: Global, g: &Graph, nodes: &[bool], root: u32) -> Sought
    requires marks { length nodes.now ≡ g.now.nodes }
    requires root { mark_of nodes.now root ≡ true }
    ensures whole { IfOk result (λ o. IfNone o (IsWholeBeside g.now (mark_of nodes.now) root)) }
    ensures parting { IfOk result (λ o. IfSome o (IsParting g.now (mark_of nodes.now))) }
{
    let mut known = begin(alloc, g, nodes, root)?;
    grow(alloc, g, nodes, &mut known)
}

// Looks for a node that parts the set together with the first: the two are tried together, and then each node other than the second in the
// set without the first.
fn together(alloc: Global, g: &Graph, nodes: &[bool], first: u32, second: u32) -> Sought
    requires marks { length nodes.now ≡ g.now.nodes }
    requires first { mark_of nodes.now first ≡ true }
    requires second { mark_of nodes.now second ≡ true }
    requires differ { first ≢ second }
    ensures whole { IfOk result (λ o. IfNone o (IsWholeWith g.now (mark_of nodes.now) first)) }
    ensures parting { IfOk result (λ o. IfSome o (IsParting g.now (mark_of nodes.now))) }
{
    let _count = g.nodes();
    if let Some(parting) = parting_at(alloc, g, nodes, first, first)? {
        return Ok(Some(parting));
    }
    if let Some(parting) = parting_at(alloc, g, nodes, first, second)? {
        return Ok(Some(parting));
    }
    let rest = all_but(alloc, nodes, first, first)?;
    match part_at_one(alloc, g, &rest, second)? {
        Some(found) => Ok(Some(Parting {
            side: found.side,
            first,
            second: found.second,
        })),
        None => Ok(None),
    }
}

// Looks for two nodes that part a set of at least four nodes: the first with another, and then two others beside it, for which nodes are
// held that no two part from it.
pub fn seek(alloc: Global, g: &Graph, nodes: &[bool], first: u32, second: u32) -> Sought
    requires marks { length nodes.now ≡ g.now.nodes }
    requires four { 4 ≤ size g.now (mark_of nodes.now) }
    requires first { mark_of nodes.now first ≡ true }
    requires second { mark_of nodes.now second ≡ true }
    requires differ { first ≢ second }
    ensures whole { IfOk result (λ o. IfNone o (IsThreeConnectedIn g.now (mark_of nodes.now))) }
    ensures parting { IfOk result (λ o. IfSome o (IsParting g.now (mark_of nodes.now))) }
{
    let _count = g.nodes();
    if let Some(parting) = together(alloc, g, nodes, first, second)? {
        return Ok(Some(parting));
    }
    match beside(alloc, g, nodes, first)? {
        Some(parting) => Ok(Some(parting)),
        None => Ok(None),
    }
}

// The first node of the set other than the root.
pub fn other(g: &Graph, nodes: &[bool], root: u32) -> u32
    requires marks { length nodes.now ≡ g.now.nodes }
    requires two { 2 ≤ size g.now (mark_of nodes.now) }
    ensures node { mark_of nodes.now result ≡ true }
    ensures other { root ≢ result }
{
    for v in 0..g.nodes() {
        if nodes[v as usize] && v != root {
            return v;
        }
    }
    unreachable!()
}

// A node, and how many steps lead to it in the tree of a search.
#[derive(Clone, Copy)]
struct Far {
    node: u32,
    steps: usize,
}

// How many steps lead up from a node to the root of a search. It tells which sets are long, for speed alone.
fn steps_up(found: &Swept, node: u32) -> usize {
    let mut at = node;
    for steps in 0..found.order.len() {
        match found.parent.get(at as usize) {
            Some(&up) if up != at => at = up,
            _ => return steps,
        }
    }
    found.order.len()
}

// A node of the set that is farthest from the root; any other where no walk in the set leads from the root to another.
fn farthest(alloc: Global, g: &Graph, nodes: &[bool], root: u32) -> Result<Far, NoMemory>
    requires marks { length nodes.now ≡ g.now.nodes }
    requires two { 2 ≤ size g.now (mark_of nodes.now) }
    requires root { mark_of nodes.now root ≡ true }
    ensures node { IfOk result (λ far. mark_of nodes.now far.node ≡ true) }
    ensures other { IfOk result (λ far. root ≢ far.node) }
{
    let found = sweep(alloc, g, nodes, &[root])?;
    let last = found.order[found.order.len() - 1];
    let node = if last == root {
        other(g, nodes, root)
    } else {
        last
    };
    let steps = steps_up(&found, last);
    Ok(Far { node, steps })
}

// The parting of the set by two nodes in the middle of a search from one end of it, one behind the other in its order, where two such nodes
// part it.
fn middle_parting(alloc: Global, g: &Graph, nodes: &[bool], end: u32) -> Sought
    requires marks { length nodes.now ≡ g.now.nodes }
    requires end { mark_of nodes.now end ≡ true }
    ensures { IfOk result (λ o. IfSome o (IsParting g.now (mark_of nodes.now))) }
{
    let found = sweep(alloc, g, nodes, &[end])?;
    let middle = found.order.len() / 2;
    for place in middle..found.order.len().min(middle + 2) {
        if place > 0 {
            let (before, here) = (found.order[place - 1], found.order[place]);
            if let Some(parting) = parting_at(alloc, g, nodes, before, here)? {
                return Ok(Some(parting));
            }
        }
    }
    Ok(None)
}

// In a long set there are fewer links to a step than this.
const NARROW: usize = 16;

/// Looks for two nodes that part a set of at least four nodes of a graph; what links lead out of the set is not looked at. A long set is
/// first tried in the middle of a search from its one end, and then the root, a node of the set, with a node farthest from it, so that
/// rings and ladders are cut in half, and a split tree of them is as deep as the logarithm of their nodes. Then the root is tried with each
/// other node: without it, nodes are gathered that no single node parts from the other one, each with a way that a search finds. At last
/// nodes are gathered that no two others part from the root, each by a search that stops at the third gathered node that it meets. A few
/// searches linear in nodes and links, and at most one short one for each node: on networks that are no narrow strips, these look at each
/// link a few times in all, and on a narrow strip of n nodes at some n²/4.
pub fn probe(alloc: Global, g: &Graph, nodes: &[bool], root: u32) -> Sought
    requires marks { length nodes.now ≡ g.now.nodes }
    requires four { 4 ≤ size g.now (mark_of nodes.now) }
    requires root { mark_of nodes.now root ≡ true }
    ensures whole { IfOk result (λ o. IfNone o (IsThreeConnectedIn g.now (mark_of nodes.now))) }
    ensures parting { IfOk result (λ o. IfSome o (IsParting g.now (mark_of nodes.now))) }
{
    let far = farthest(alloc, g, nodes, root)?;
    if far.steps > g.links().len() / NARROW {
        if let Some(parting) = middle_parting(alloc, g, nodes, far.node)? {
            return Ok(Some(parting));
        }
    }
    seek(alloc, g, nodes, root, far.node)
}
