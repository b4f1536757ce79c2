// The lowest set of monitors, by leaving out what can be left out.
ghost use Rattle.std.specs.Prelude.{◌≡◌, ◌<◌, ◌≤◌, ℕ, All, IfOk, MatchOption, nat_lt, ◌&&◌, not};
ghost use Rattle.std.specs.List.Sorted.{IsStrictlyIncreasing};
ghost use Rattle.tomo_base.specs.Network.{IsGraph};
ghost use Rattle.tomo_base.specs.Walks.{IsConnected};
ghost use Rattle.tomo_base.specs.BadParts.{NoBadPart};
ghost use Rattle.tomo_base.specs.Identify.{Identifies};
ghost use Rattle.tomo_base.specs.Lowest.{IsLowest, IsLowestAllowed};
ghost use Rattle.tomo_base.specs.Sets.{has, complement, Apart};
ghost use Rattle.ident_laws.specs.Laws.{HasOwnPocket};
ghost use Rattle.drop_place.specs.Leaving.{LeavesOut};

use std::alloc::Global;
use tomo_base::{Graph, NoMemory, NodeSet};
use unit_flow::{Fanned, fan, others};

/// The lowest set: it identifies every link, and for each number h no set that does has fewer nodes numbered h or above, so that
/// none is smaller. At most three searches for each node, each linear in nodes and links.
pub fn place(alloc: Global, g: &Graph) -> Result<NodeSet, NoMemory>
    requires connected { IsConnected g.now }
    requires three { 3 ≤ g.now.nodes }
    ensures lowest { IfOk result (λ m. IsLowest g.now (has m)) }
    ensures nodes { IfOk result (λ m. All (λ v. v < g.now.nodes) m) }
    ensures ascending { IfOk result (λ m. IsStrictlyIncreasing m) }
{
    drop_nodes(alloc, g, &NodeSet::new(alloc), &NodeSet::new(alloc))
}

/// The lowest set that holds all nodes of `must` and none of `not`: of the sets that do and that identify every link it has for each
/// number h the fewest nodes numbered h or above, so that none of them is smaller. Beginning with all nodes outside `not`, each that is
/// not in `must` is tried, from the highest down, and left out if it can be. At most three searches for each node, each linear in nodes
/// and links.
pub fn place_with(
    alloc: Global,
    g: &Graph,
    must: &NodeSet,
    not: &NodeSet,
) -> Result<NodeSet, NoMemory>
    requires connected { IsConnected g.now }
    requires three { 3 ≤ g.now.nodes }
    requires must_nodes { All (λ v. v < g.now.nodes) must.now }
    requires not_nodes { All (λ v. v < g.now.nodes) not.now }
    requires apart { Apart (has must.now) (has not.now) }
    requires identifies { Identifies g.now (complement (has not.now)) }
    ensures lowest { IfOk result (λ m. IsLowestAllowed g.now (Identifies g.now) (λ v. v) (has must.now) (has not.now) (has m)) }
    ensures nodes { IfOk result (λ m. All (λ v. v < g.now.nodes) m) }
    ensures ascending { IfOk result (λ m. IsStrictlyIncreasing m) }
{
    drop_nodes(alloc, g, must, not)
}

// The lowest set of those without a bad part that hold all nodes of `must` and none of `not`.
fn drop_nodes(alloc: Global, g: &Graph, must: &NodeSet, not: &NodeSet) -> Result<NodeSet, NoMemory>
    requires apart { Apart (has must.now) (has not.now) }
    requires good { IsGraph g.now → NoBadPart g.now (complement (has not.now)) }
    ensures lowest { IfOk result (λ m. IsLowestAllowed g.now (NoBadPart g.now) (λ v. v) (has must.now) (has not.now) (has m)) }
    ensures nodes { IfOk result (λ m. All (λ v. v < g.now.nodes) m) }
    ensures ascending { IfOk result (λ m. IsStrictlyIncreasing m) }
    ensures graph { IsGraph g.now }
{
    let mut kept = nodes_outside(alloc, g, not)?;
    for u in (0..g.nodes()).rev() {
        if must.has(u) || not.has(u) {
            continue;
        }
        if let Some(rest) = leave_out(alloc, g, &kept, u)? {
            kept = rest;
        }
    }
    // The nodes that a set lends ascend.
    let _ascending = kept.as_slice();
    Ok(kept)
}

/// The nodes of a graph that are not in a set.
pub fn nodes_outside(alloc: Global, g: &Graph, set: &NodeSet) -> Result<NodeSet, NoMemory>
    ensures graph { IsGraph g.now }
    ensures nodes { IfOk result (λ kept. (v : ℕ) → has kept v ≡ (nat_lt v g.now.nodes && not (has set.now v))) }
{
    let mut kept = NodeSet::new(alloc);
    for v in 0..g.nodes() {
        if !set.has(v) {
            kept.insert(v)?;
        }
    }
    Ok(kept)
}

// The set without the node, if it can be left out: if three paths that share only the node lead from it to others of the set.
fn leave_out(alloc: Global, g: &Graph, m: &NodeSet, u: u32) -> Result<Option<NodeSet>, NoMemory>
    requires graph { IsGraph g.now }
    requires node { u < g.now.nodes }
    requires nodes { All (λ v. v < g.now.nodes) m.now }
    ensures { IfOk result (λ o. MatchOption o (HasOwnPocket g.now (has m.now) u) (LeavesOut g.now (has m.now) u)) }
{
    if g.hops(u).len() < 3 {
        return Ok(None);
    }
    let rest = others(alloc, m, u)?;
    match fan(alloc, g, u, &rest)? {
        Fanned::Three(_) => Ok(Some(rest)),
        Fanned::Few(_) => Ok(None),
    }
}
