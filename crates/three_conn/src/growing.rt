// Nodes that no two others part from the root, one after the other.
ghost use Rattle.std.specs.Prelude.{◌≡◌, ◌<◌, true, length, IfOk, OnOk, IfSome, IfNone};
ghost use Rattle.tomo_base.specs.Sets.{Within};
ghost use Rattle.tomo_base.specs.Search.{mark_of};
ghost use Rattle.gate_search.specs.Stops.{IsRoom};
ghost use Rattle.three_conn.specs.Parting.{IsParting};
ghost use Rattle.three_conn.specs.Growing.{IsGrowth};
ghost use Rattle.three_conn.specs.Held.{IsKnown};

use crate::known::{Growth, Known, Parting, Sought};
use crate::marks::rest;
use crate::meeting::meet;
use gate_search::{GateSearch, add_free, take_free};
use std::alloc::Global;
use tomo_base::{Graph, NoMemory};

// A step from a free node: a search from it, or from the first node with a gate to which it is connected, up to gates to three different
// nodes. These give a node with ways out of the free nodes, where the ways from the three meet.
pub fn step(
    g: &Graph,
    nodes: &[bool],
    free: &[bool],
    x: u32,
    search: &mut GateSearch,
) -> Result<Growth, NoMemory>
    requires marks { length nodes.now ≡ g.now.nodes }
    requires free { length free.now ≡ g.now.nodes }
    requires inside { Within (mark_of free.now) (mark_of nodes.now) }
    requires node { (x < g.now.nodes) × (mark_of free.now x ≡ true) }
    requires room { IsRoom g.now.nodes search.old.found }
    ensures growth { IfOk result (IsGrowth g.now (mark_of nodes.now) (mark_of free.now) search.new.found) }
    ensures room { OnOk result (IsRoom g.now.nodes search.new.found) }
{
    let n = g.nodes();
    let Some(first) = search.start_at_gate(g, nodes, free, x)? else {
        return Ok(Growth::Parted(n, n));
    };
    let a = first.outer;
    let Some(second) = search.next_gate(g, nodes, free, a, a)? else {
        return Ok(Growth::Parted(a, a));
    };
    let b = second.outer;
    let Some(third) = search.next_gate(g, nodes, free, a, b)? else {
        return Ok(Growth::Parted(a, b));
    };
    Ok(Growth::More(meet(&search.found, second.inner, third.inner)))
}

// Lets the held nodes grow until all nodes of the set are held, or two nodes part the set. Steps go from neighbours of nodes that were held
// lately, which have gates; where there are none, from any free node.
pub fn grow(alloc: Global, g: &Graph, nodes: &[bool], known: &mut Known) -> Sought
    requires marks { length nodes.now ≡ g.now.nodes }
    requires known { IsKnown g.now (mark_of nodes.now) known.old }
    ensures known { IsKnown g.now (mark_of nodes.now) known.new }
    ensures root { known.new.root ≡ known.old.root }
    ensures whole { IfOk result (λ o. IfNone o (Within (mark_of nodes.now) (mark_of known.new.held.items))) }
    ensures parting { IfOk result (λ o. IfSome o (IsParting g.now (mark_of nodes.now))) }
{
    let mut free = rest(alloc, nodes, &known.held)?;
    let mut search = GateSearch::new(alloc, g.nodes())?;
    let mut starts = Vec::new(alloc);
    let mut x = 0;
    while x < g.nodes() {
        if free[x as usize] {
            let start = take_free(&free, &mut starts, x);
            match step(g, nodes, &free, start, &mut search)? {
                Growth::More(u) => {
                    add_free(g, &free, u, &mut starts)?;
                    known.held[u as usize] = true;
                    free[u as usize] = false;
                }
                Growth::Parted(first, second) => {
                    return Ok(Some(Parting {
                        side: search.found.order,
                        first,
                        second,
                    }));
                }
            }
        } else {
            x += 1;
        }
    }
    Ok(None)
}
