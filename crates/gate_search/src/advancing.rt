// Nodes of a set that no single node parts from a root.
ghost use Rattle.std.specs.Prelude.{ℕ, ◌≡◌, ◌<◌, Bool, true, false, length, set, All, IsTrue, IfOk, OnOk};
ghost use Rattle.tomo_base.specs.Sets.{count, Within};
ghost use Rattle.tomo_base.specs.Search.{mark_of};
ghost use Rattle.tomo_base.specs.Parting.{AreJoinedIn};
ghost use Rattle.gate_search.specs.Trees.{IsRanked};
ghost use Rattle.gate_search.specs.Stops.{IsRoom, IsGateSearch};
ghost use Rattle.gate_search.specs.Advancing.{IsGrown, HasTwoGates, TellsAdvance};

use crate::search::GateSearch;
use crate::starts::add_free;
use std::alloc::{AllocError, Global};
use tomo_base::{Graph, NoMemory};

/// What a search from a free node tells.
#[derive(Drop)]
pub enum Advance {
    /// The nodes from this one on the way up to the start may be held.
    Way(u32),
    /// This node cuts off what the search has reached.
    Cut(u32),
}

/// Marks on the nodes of the set that are not held: at first the root and its neighbours are held. Time is linear in nodes.
pub fn free_at_first(
    alloc: Global,
    g: &Graph,
    nodes: &[bool],
    root: u32,
) -> Result<Vec<bool>, NoMemory>
    requires marks { length nodes.now ≡ g.now.nodes }
    requires root { mark_of nodes.now root ≡ true }
    ensures size { IfOk result (λ free. length free.items ≡ g.now.nodes) }
    ensures grown { IfOk result (λ free. (base : ℕ → Bool) → Within (mark_of nodes.now) base → IsGrown g.now base root (mark_of nodes.now) (mark_of free.items)) }
{
    let _count = g.nodes();
    let mut free = nodes.to_vec(alloc)?;
    free[root as usize] = false;
    for hop in g.hops(root) {
        free[hop.node as usize] = false;
    }
    Ok(free)
}

/// A search from a free node, or from the first node with a gate to which it is connected, up to gates to two different nodes. Time is linear
/// in the links of the nodes that it reaches.
pub fn advance_from(
    g: &Graph,
    nodes: &[bool],
    free: &[bool],
    x: u32,
    search: &mut GateSearch,
) -> Result<Advance, NoMemory>
    requires marks { length nodes.now ≡ g.now.nodes }
    requires free { length free.now ≡ g.now.nodes }
    requires node { (x < g.now.nodes) × (mark_of free.now x ≡ true) }
    requires joined { (held : ℕ) × (mark_of free.now held ≡ false) × AreJoinedIn g.now (mark_of nodes.now) x held }
    requires room { IsRoom g.now.nodes search.old.found }
    ensures { IfOk result (TellsAdvance g.now (mark_of nodes.now) free.now search.new) }
{
    let _count = g.nodes();
    let Some(first) = search.start_at_gate(g, nodes, free, x)? else {
        unreachable!()
    };
    let d = first.outer;
    match search.next_gate(g, nodes, free, d, d)? {
        Some(second) => Ok(Advance::Way(second.inner)),
        None => Ok(Advance::Cut(d)),
    }
}

// Holds a node: it is free no more, and its free neighbours have a gate.
fn hold(g: &Graph, v: u32, free: &mut Vec<bool>, starts: &mut Vec<u32>) -> Result<(), AllocError>
    requires free { length free.old.items ≡ g.now.nodes }
    requires node { v < g.now.nodes }
    requires starts { All (λ u. u < g.now.nodes) starts.old.items }
    ensures free { OnOk result (free.new.items ≡ set free.old.items v false) }
    ensures starts { OnOk result (All (λ u. u < g.now.nodes) starts.new.items) }
{
    let _count = g.nodes();
    add_free(g, free, v, starts)?;
    free[v as usize] = false;
    Ok(())
}

/// Holds the nodes on the way from y up to the start of the search, and puts their free neighbours on the list. The error is want of memory.
pub fn hold_way(
    g: &Graph,
    search: &GateSearch,
    y: u32,
    free: &mut Vec<bool>,
    starts: &mut Vec<u32>,
) -> Result<(), AllocError>
    requires free { length free.old.items ≡ g.now.nodes }
    requires starts { All (λ u. u < g.now.nodes) starts.old.items }
    requires search { IsGateSearch g.now free.old.items search.now }
    requires ranked { IsRanked search.now.found y }
    ensures size { OnOk result (length free.new.items ≡ g.now.nodes) }
    ensures starts { OnOk result (All (λ u. u < g.now.nodes) starts.new.items) }
    ensures fewer { OnOk result (count g.now.nodes (mark_of free.new.items) < count g.now.nodes (mark_of free.old.items)) }
    ensures passed { OnOk result ((v : ℕ) → mark_of free.old.items v ≡ false → mark_of free.new.items v ≡ false) }
    ensures grown { OnOk result ((base : ℕ → Bool) (root : ℕ) (w : ℕ → Bool) → HasTwoGates g.now w free.old.items search.now y → IsGrown g.now base root w (mark_of free.old.items) → IsGrown g.now base root w (mark_of free.new.items)) }
{
    let _count = g.nodes();
    let mut v = y;
    while v != search.start {
        hold(g, v, free, starts)?;
        v = search.found.parent[v as usize];
    }
    hold(g, v, free, starts)?;
    Ok(())
}
