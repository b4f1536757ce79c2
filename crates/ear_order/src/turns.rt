// The search for the next ear, turn by turn.
ghost use Rattle.std.specs.Prelude.{◌≡◌, ◌<◌, ℕ, true, false, not, ◌&&◌, length, All, IfOk, IfSome, IfNone, OnOk};
ghost use Rattle.tomo_base.specs.Sets.{has};
ghost use Rattle.tomo_base.specs.Search.{mark_of};
ghost use Rattle.ear_order.specs.Ears.{IsEar, LeavesConnected};
ghost use Rattle.ear_order.specs.Turns.{between, IsLeft, AreLeft, IsBeyond, IsClear, ContinuesWith, IsFreePart};

use crate::candidates::{better, candidate, last_ear};
use crate::marks::{left, mark};
use crate::parts::{Part, part_of};
use std::alloc::{AllocError, Global};
use tomo_base::{Graph, NoMemory};

// Takes the marks from a node and its neighbours.
fn clear_near(g: &Graph, marks: &mut Vec<bool>, v: u32)
    requires node { v < g.now.nodes }
    requires marks { length marks.old.items ≡ g.now.nodes }
    ensures size { length marks.new.items ≡ g.now.nodes }
    ensures cleared { IsClear g.now v (mark_of marks.old.items) (mark_of marks.new.items) }
{
    let _nodes = g.nodes();
    marks[v as usize] = false;
    for hop in g.hops(v) {
        marks[hop.node as usize] = false;
    }
}

// The nodes that are left and are neither in the part nor neighbours of it.
fn beyond(alloc: Global, g: &Graph, rest: &[bool], part: &Part) -> Result<Vec<bool>, AllocError>
    requires nodes { All (λ v. v < g.now.nodes) part.now.order.items }
    requires marks { length rest.now ≡ g.now.nodes }
    ensures size { IfOk result (λ others. length others.items ≡ g.now.nodes) }
    ensures beyond { IfOk result (λ others. IsBeyond g.now (mark_of rest.now) (has part.now.order.items) (mark_of others.items)) }
{
    let mut others = rest.to_vec(alloc)?;
    for &v in &part.order {
        clear_near(g, &mut others, v);
    }
    Ok(others)
}

// The last node of a list with a mark.
fn last_marked(nodes: &[u32], marks: &[bool]) -> Option<u32>
    requires { All (λ v. v < length marks.now) nodes.now }
    ensures some { IfSome result (λ v. mark_of marks.now v ≡ true) }
    ensures none { IfNone result ((v : ℕ) → has nodes.now v ≡ true → mark_of marks.now v ≡ false) }
{
    let mut place = nodes.len();
    while 0 < place {
        place -= 1;
        if marks[nodes[place] as usize] {
            return Some(nodes[place]);
        }
    }
    None
}

// The part of `u` in what an ear leaves.
fn part_left(alloc: Global, g: &Graph, rest: &[bool], ear: &[u32], u: u32) -> Result<Part, NoMemory>
    requires nodes { All (λ v. v < g.now.nodes) ear.now }
    requires marks { length rest.now ≡ g.now.nodes }
    requires left { mark_of rest.now u ≡ true }
    requires off { has ear.now u ≡ false }
    ensures part { IfOk result (λ p. IsFreePart g.now (λ v. mark_of rest.now v && not (has ear.now v)) u p.order.items (mark_of p.inside.items)) }
    ensures marks { IfOk result (λ p. length p.inside.items ≡ g.now.nodes) }
{
    let mut free = rest.to_vec(alloc)?;
    mark(&mut free, ear, false);
    part_of(alloc, g, &free, u)
}

// Betters a candidate until the part of `u` is all that it leaves. `far` are all nodes that are left, in an order in which those far from `u` come last.
fn bettered(
    alloc: Global,
    g: &Graph,
    old: &[bool],
    rest: &[bool],
    u: u32,
    far: &[u32],
    first: Vec<u32>,
) -> Result<Vec<u32>, NoMemory>
    requires left { IsLeft g.now old.now u }
    requires rest { AreLeft old.now rest.now }
    requires nodes { All (λ v. v < g.now.nodes) far.now }
    requires all { (v : ℕ) → mark_of rest.now v ≡ true → has far.now v ≡ true }
    requires ear { IsEar g.now (mark_of old.now) first.items }
    requires off { between first.items u ≡ false }
    ensures ear { IfOk result (λ e. IsEar g.now (mark_of old.now) e.items) }
    ensures goes_on { IfOk result (λ e. LeavesConnected g.now u (mark_of old.now) e.items) }
{
    let _nodes = g.nodes();
    let mut ear = first;
    let mut part = part_left(alloc, g, rest, &ear, u)?;
    loop {
        let others = beyond(alloc, g, rest, &part)?;
        let Some(x) = last_marked(far, &others) else {
            return Ok(ear);
        };
        let further = part_of(alloc, g, &others, x)?;
        ear = better(alloc, g, old, &further, ear)?;
        part = part_left(alloc, g, rest, &ear, u)?;
    }
}

/// The next ear, where the nodes that are left hold `u` and are connected: after it this holds again, or it is the last.
/// The first candidate goes through what is far from `u`; it is bettered while it leaves more than the part of `u`,
/// and that part grows each time. Each turn is linear in nodes and links.
pub fn next_ear(alloc: Global, g: &Graph, old: &[bool], u: u32) -> Result<Vec<u32>, NoMemory>
    requires { IsLeft g.now old.now u }
    ensures ear { IfOk result (λ e. IsEar g.now (mark_of old.now) e.items) }
    ensures next { IfOk result (λ e. ContinuesWith g.now u (mark_of old.now) e.items) }
{
    let _nodes = g.nodes();
    let rest = left(alloc, old)?;
    let far = part_of(alloc, g, &rest, u)?;
    let count = far.order.len();
    if count == 1 {
        return Ok(last_ear(alloc, g, old, u)?);
    }
    let x = far.order[count - 1];
    let first = candidate(alloc, g, old, &rest, u, x)?;
    bettered(alloc, g, old, &rest, u, &far.order, first)
}
