// Ear orders of small graphs, where memory is ample.
ghost use Rattle.std.specs.Prelude.{◌<◌, IsTrue, IfOk};
ghost use Rattle.tomo_base.specs.Network.{linked};
ghost use Rattle.tomo_base.specs.Cuts.{IsThreeConnected};
ghost use Rattle.ear_order.specs.Ears.{AreEnds};

use crate::tests::small::{PRISM, topology_of};
use ear_order::{EarOrder, Step, order};
use samples::COMPLETE;
use std::alloc::Global;
use std::test::Fail;
use three_conn::{Conn, three_connected};
use tomo_base::{Graph, NoMemory};

// Whether the graph stays connected without any two nodes.
fn stays_connected(alloc: Global, g: &Graph) -> Result<bool, NoMemory>
    ensures { IfOk result (λ yes. IsTrue yes → IsThreeConnected g.now) }
{
    Ok(matches!(three_connected(alloc, g)?, Conn::Yes))
}

// Whether the nodes are linked.
fn are_linked(g: &Graph, a: u32, b: u32) -> bool
    requires first { a < g.now.nodes }
    requires second { b < g.now.nodes }
    ensures { IsTrue result → IsTrue (linked g.now a b) }
{
    match g.between(a, b) {
        Some(_link) => true,
        None => false,
    }
}

// Whether r and t are linked, and u is a third node.
fn are_ends(g: &Graph, r: u32, t: u32, u: u32) -> bool
    ensures { IsTrue result → AreEnds g.now r t u }
{
    let n = g.nodes();
    r < n && t < n && u < n && u != r && u != t && are_linked(g, r, t)
}

// How many nodes stand in ears, as inner nodes or as the ends of the first ear.
fn node_count(ears: &EarOrder) -> usize {
    let mut count = 2usize;
    for i in 0..ears.len() {
        count = count.saturating_add(ears.ear(i).len().saturating_sub(2));
    }
    count
}

// The number of ears of an order of a graph, and how many nodes stand in them.
fn whole(
    alloc: Global,
    g: &Graph,
    r: u32,
    t: u32,
    u: u32,
) -> Result<Option<(u32, usize)>, NoMemory> {
    if !stays_connected(alloc, g)? || !are_ends(g, r, t, u) {
        return Ok(None);
    }
    let ears = order(alloc, g, r, t, u)?;
    Ok(Some((ears.len(), node_count(&ears))))
}

// Whether the order of a graph has two ears: one more after the first, and then no more.
fn has_two_ears(alloc: Global, g: &Graph, r: u32, t: u32, u: u32) -> Result<bool, NoMemory> {
    if !stays_connected(alloc, g)? || !are_ends(g, r, t, u) {
        return Ok(false);
    }
    let mut ears = EarOrder::start(alloc, g, r, t, u)?;
    let one = ears.len() == 1;
    let more = ears.next(alloc, g)? == Step::More;
    let done = ears.next(alloc, g)? == Step::Done;
    Ok(one && more && done && ears.len() == 2)
}

#[test]
fn four_nodes_stand_in_two_ears(rt: HostRuntime) -> Result<(), Fail> {
    let alloc = rt.alloc();
    let complete = topology_of(alloc, COMPLETE)?;
    assert!(rt; has_two_ears(alloc, complete.graph(), 0, 1, 2)?);
    assert!(rt; whole(alloc, complete.graph(), 0, 1, 2)? == Some((2, 4)));
    Ok(())
}

#[test]
fn all_nodes_of_a_prism_stand_in_ears(rt: HostRuntime) -> Result<(), Fail> {
    let alloc = rt.alloc();
    let prism = topology_of(alloc, PRISM)?;
    let found = whole(alloc, prism.graph(), 0, 1, 5)?;
    assert!(rt; matches!(found, Some((ears, 6)) if ears > 2));
    Ok(())
}
