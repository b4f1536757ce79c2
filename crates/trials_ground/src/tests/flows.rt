// Flows on small graphs, where memory is ample.
ghost use Rattle.std.specs.Prelude.{◌≡◌, ◌<◌, IsTrue, All, IfOk, IfSome, false};
ghost use Rattle.tomo_base.specs.Sets.{has};

use samples::{FIVE_LINKED, graph_with, set_of};
use std::alloc::Global;
use std::test::Fail;
use tomo_base::{Graph, NoMemory, NodeSet};
use unit_flow::{Fanned, Flow, Widened, fan, others};

// Whether the set lies in the graph, and the source is not in it.
fn fits(g: &Graph, source: u32, set: &NodeSet) -> bool
    ensures nodes { IsTrue result → All (λ v. v < g.now.nodes) set.now }
    ensures apart { IsTrue result → has set.now source ≡ false }
{
    let count = g.nodes();
    !set.has(source) && set.as_slice().iter().all(|v| *v < count)
}

// A flow from node 0, if it has a task.
fn flow_from_0(
    alloc: Global,
    g: &Graph,
    targets: &[u32],
    banned: &[u32],
) -> Result<Option<Flow>, NoMemory>
    ensures { IfOk result (λ o. IfSome o (λ f. f.graph ≡ g.now)) }
{
    let targets = set_of(alloc, targets)?;
    let banned = set_of(alloc, banned)?;
    if g.nodes() == 0 || !fits(g, 0, &targets) || !fits(g, 0, &banned) {
        return Ok(None);
    }
    Ok(Some(Flow::new(alloc, g, 0, &targets, &banned)?))
}

// Widens the flow up to ten times, and answers the set for which it is stuck.
fn widen_all(alloc: Global, g: &Graph, flow: &mut Flow) -> Result<Option<NodeSet>, NoMemory>
    requires { flow.old.graph ≡ g.now }
{
    for _ in 0..10u32 {
        if let Widened::Stuck(cut) = flow.widen(alloc, g)? {
            return Ok(Some(cut));
        }
    }
    Ok(None)
}

// Whether the flow becomes stuck for the set, with the paths.
fn comes_to(
    alloc: Global,
    g: &Graph,
    targets: &[u32],
    banned: &[u32],
    cut: &[u32],
    paths: &[&[u32]],
) -> Result<bool, NoMemory> {
    let Some(mut flow) = flow_from_0(alloc, g, targets, banned)? else {
        return Ok(false);
    };
    let stuck = widen_all(alloc, g, &mut flow)?;
    let pool = flow.paths(alloc)?;
    let mut same = pool.len() as usize == paths.len() && flow.count() == pool.len();
    for (i, path) in paths.iter().enumerate() {
        same = same && i < pool.len() as usize && pool.path(i as u32) == *path;
    }
    Ok(same && stuck.is_some_and(|set| set.as_slice() == cut))
}

// Whether there are three paths from node 0 to the targets, or else the set is what stops a third.
fn fan_comes_to(
    alloc: Global,
    g: &Graph,
    targets: &[u32],
    cut: Option<&[u32]>,
) -> Result<bool, NoMemory> {
    let targets = set_of(alloc, targets)?;
    if g.nodes() == 0 || !fits(g, 0, &targets) {
        return Ok(false);
    }
    match fan(alloc, g, 0, &targets)? {
        Fanned::Three(flow) => Ok(cut.is_none() && flow.count() == 3),
        Fanned::Few(set) => Ok(cut == Some(set.as_slice())),
    }
}

// The shortest way from 0 to the nodes 5 and 6 goes over 1 and 4, and leaves no second one.
const DETOUR: [(u32, u32); 8] = [
    (0, 1),
    (0, 2),
    (1, 3),
    (1, 4),
    (2, 4),
    (3, 7),
    (4, 6),
    (5, 7),
];

#[test]
fn four_nodes_give_three_paths_and_no_fourth(rt: HostRuntime) -> Result<(), Fail> {
    let alloc = rt.alloc();
    let g = graph_with(alloc, 4, &FIVE_LINKED[..6])?;
    let paths = [[0, 1].as_slice(), &[0, 2], &[0, 3]];
    assert!(rt; comes_to(alloc, &g, &[1, 2, 3], &[], &[0], &paths)?);
    Ok(())
}

#[test]
fn a_path_is_led_another_way(rt: HostRuntime) -> Result<(), Fail> {
    let alloc = rt.alloc();
    let g = graph_with(alloc, 8, &DETOUR)?;
    let paths = [[0, 1, 3, 7, 5].as_slice(), &[0, 2, 4, 6]];
    assert!(rt; comes_to(alloc, &g, &[5, 6], &[], &[0], &paths)?);
    Ok(())
}

#[test]
fn banned_nodes_leave_two_paths_or_one(rt: HostRuntime) -> Result<(), Fail> {
    let alloc = rt.alloc();
    let g = graph_with(alloc, 5, &FIVE_LINKED)?;
    let two = [[0, 3].as_slice(), &[0, 4]];
    assert!(rt; comes_to(alloc, &g, &[3, 4], &[1], &[0, 2], &two)?);
    let one = [[0, 3].as_slice()];
    assert!(rt; comes_to(alloc, &g, &[3], &[1, 2, 4], &[0], &one)?);
    Ok(())
}

#[test]
fn a_fan_needs_three_targets(rt: HostRuntime) -> Result<(), Fail> {
    let alloc = rt.alloc();
    let g = graph_with(alloc, 5, &FIVE_LINKED)?;
    assert!(rt; fan_comes_to(alloc, &g, &[2, 3, 4], None)?);
    assert!(rt; fan_comes_to(alloc, &g, &[3, 4], Some(&[0, 1, 2]))?);
    Ok(())
}

#[test]
fn others_are_all_but_one(rt: HostRuntime) -> Result<(), Fail> {
    let alloc = rt.alloc();
    let set = set_of(alloc, &[3, 5, 8])?;
    assert!(rt; others(alloc, &set, 5)?.as_slice() == [3, 8].as_slice());
    assert!(rt; others(alloc, &set, 4)?.as_slice() == [3, 5, 8].as_slice());
    Ok(())
}
