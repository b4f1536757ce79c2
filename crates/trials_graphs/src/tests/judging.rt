// Monitors are judged where memory is ample, and nodes seen from them; the judge answers as flows and as the extended graph do.
ghost use Rattle.std.specs.Prelude.{◌≤◌, ◌<◌, All};
ghost use Rattle.tomo_base.specs.Walks.{IsConnected};

use crate::tests::shapes::{CHORD, SHARING_A_PAIR, STAR, Shape, lies_in, network_of};
use drill::generate;
use extended_graph::extend;
use judge::{Verdict, judge};
use samples::set_of;
use std::alloc::Global;
use std::test::Fail;
use three_conn::{Conn, seen, three_connected};
use tomo_base::{GRAPH_LINK_LIMIT, GRAPH_NODE_LIMIT, Graph, NoMemory, NodeSet};
use unit_flow::{Fanned, fan};

// The bad set of the monitors of a shape, or no node where they identify.
fn is_judged(alloc: Global, shape: &Shape, monitors: &[u32], bad: &[u32]) -> Result<bool, Fail> {
    let Some(g) = network_of(alloc, shape)? else {
        return Ok(false);
    };
    let set = set_of(alloc, monitors)?;
    if !lies_in(&g, &set) {
        return Ok(false);
    }
    Ok(match judge(alloc, &g, &set)? {
        Verdict::Yes => bad.is_empty(),
        Verdict::Bad(nodes) => nodes.as_slice() == bad,
    })
}

#[test]
fn a_star_needs_its_leaves(rt: HostRuntime) -> Result<(), Fail> {
    for (monitors, bad) in [
        ([1, 2, 3].as_slice(), [].as_slice()),
        (&[1, 2], &[0, 3]),
        (&[], &[0, 1, 2, 3]),
    ] {
        assert!(rt; is_judged(rt.alloc(), &STAR, monitors, bad)?);
    }
    Ok(())
}

#[test]
fn two_nodes_part_what_monitors_cannot_see(rt: HostRuntime) -> Result<(), Fail> {
    for (monitors, bad) in [
        ([0, 1, 2].as_slice(), [5, 6, 7].as_slice()),
        (&[0, 2, 5], &[]),
    ] {
        assert!(rt; is_judged(rt.alloc(), &SHARING_A_PAIR, monitors, bad)?);
    }
    Ok(())
}

// Whether just the marked nodes of a shape are seen from the monitors.
fn are_seen(alloc: Global, shape: &Shape, monitors: &[u32], marks: &[bool]) -> Result<bool, Fail> {
    let Some(g) = network_of(alloc, shape)? else {
        return Ok(false);
    };
    let set = set_of(alloc, monitors)?;
    Ok(lies_in(&g, &set) && seen(alloc, &g, &set)?.as_slice() == marks)
}

#[test]
fn what_two_nodes_part_from_monitors_is_not_seen(rt: HostRuntime) -> Result<(), Fail> {
    for (shape, monitors, marks) in [
        (STAR, [1, 2, 3].as_slice(), [true; 4]),
        (STAR, &[1, 2], [false, true, true, false]),
        (CHORD, &[0, 1, 3], [true; 4]),
        (CHORD, &[0, 1, 2], [true, true, true, false]),
    ] {
        assert!(rt; are_seen(rt.alloc(), &shape, monitors, &marks)?);
    }
    Ok(())
}

// Whether each node that is no monitor has three paths to monitors.
fn have_fans(alloc: Global, g: &Graph, m: &NodeSet) -> Result<bool, NoMemory>
    requires { All (λ v. v < g.now.nodes) m.now }
{
    for v in 0..g.nodes() {
        if !m.has(v) && matches!(fan(alloc, g, v, m)?, Fanned::Few(_)) {
            return Ok(false);
        }
    }
    Ok(true)
}

// Whether the graph extended by the monitors is three-connected.
fn extends_well(alloc: Global, g: &Graph, m: &NodeSet) -> Result<bool, NoMemory>
    requires { All (λ v. v < g.now.nodes) m.now }
{
    if g.nodes() > GRAPH_NODE_LIMIT - 2
        || g.links().len() + 2 * m.as_slice().len() > GRAPH_LINK_LIMIT
    {
        return Ok(false);
    }
    let wide = extend(alloc, g, m)?;
    Ok(matches!(three_connected(alloc, &wide)?, Conn::Yes))
}

// What the judge, flows and the extended graph say of the monitors.
fn judged_thrice(alloc: Global, g: &Graph, m: &NodeSet) -> Result<[bool; 3], NoMemory>
    requires connected { IsConnected g.now }
    requires nodes { 3 ≤ g.now.nodes }
    requires monitors { All (λ v. v < g.now.nodes) m.now }
{
    Ok([
        matches!(judge(alloc, g, m)?, Verdict::Yes),
        have_fans(alloc, g, m)?,
        extends_well(alloc, g, m)?,
    ])
}

#[test]
fn flows_and_the_extended_graph_judge_alike(rt: HostRuntime) -> Result<(), Fail> {
    let m = set_of(rt.alloc(), &[0, 1, 2, 3, 4])?;
    let mut some_yes = false;
    let mut some_no = false;
    for seed in 0..40u32 {
        let g = generate(rt.alloc(), seed, 10, 20)?;
        if g.nodes() >= 3 && lies_in(&g, &m) {
            let judged = judged_thrice(rt.alloc(), &g, &m)?;
            assert!(rt; judged == [judged[0]; 3]);
            some_yes = some_yes || judged[0];
            some_no = some_no || !judged[0];
        }
    }
    assert!(rt; some_yes);
    assert!(rt; some_no);
    Ok(())
}
