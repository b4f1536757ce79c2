// Easy ears: after them the order goes on, which is seen from the neighbours of their inner nodes.
ghost use Rattle.std.specs.Prelude.{◌≡◌, ◌≢◌, ◌-◌, ◌<◌, ◌≤◌, ℕ, length, All, IfOk, IfSome, IfNone, OnOk, true, false};
ghost use Rattle.tomo_base.specs.Search.{mark_of, entry_at};
ghost use Rattle.ear_order.specs.Ears.{with_ear};
ghost use Rattle.ear_order.specs.Easy.{IsFounded, IsOpenEar, GoesOnTo, EndsAt, IsEasy};

use crate::marks::mark;
use crate::near::near;
use crate::sparing::{all_can_go, has_lower, is_spared};
use std::alloc::{AllocError, Global};
use tomo_base::Graph;

// A neighbour of the end of a way to which the way can go on: the last, or one that is next to a node of an ear other than `first`.
fn next_over(
    g: &Graph,
    old: &[bool],
    gone: &[bool],
    rank: &[u32],
    u: u32,
    end: u32,
    first: u32,
) -> Option<u32>
    requires node { end < g.now.nodes }
    requires old { length old.now ≡ g.now.nodes }
    requires gone { length gone.now ≡ g.now.nodes }
    requires ranks { length rank.now ≡ g.now.nodes }
    ensures { IfSome result (λ w. GoesOnTo g.now (mark_of gone.now) u end w) }
{
    let n = g.nodes();
    let mut any = None;
    for hop in g.hops(end) {
        let w = hop.node;
        if w != u
            && !gone[w as usize]
            && has_lower(g, gone, rank, end, n, w)
            && is_spared(g, gone, rank, w)
        {
            any = Some(w);
            if near(g, w, old, first).is_some() {
                return any;
            }
        }
    }
    any
}

// Goes on with a way until it can end at a node of an ear other than its first, which is answered. None where it cannot go on, or
// cannot end after so many nodes.
fn extend_way(
    g: &Graph,
    old: &[bool],
    rank: &[u32],
    u: u32,
    limit: u32,
    gone: &mut Vec<bool>,
    way: &mut Vec<u32>,
) -> Result<Option<u32>, AllocError>
    requires old { length old.now ≡ g.now.nodes }
    requires gone { length gone.old.items ≡ g.now.nodes }
    requires ranks { length rank.now ≡ g.now.nodes }
    requires way { IsOpenEar g.now (mark_of old.now) (mark_of gone.old.items) u way.old.items }
    ensures size { OnOk result (length gone.new.items ≡ g.now.nodes) }
    ensures way { OnOk result (IsOpenEar g.now (mark_of old.now) (mark_of gone.new.items) u way.new.items) }
    ensures end { IfOk result (λ o. IfSome o (EndsAt g.now (mark_of old.now) way.new.items)) }
{
    let _nodes = g.nodes();
    for i in 0..limit {
        let end = way[way.len() - 1];
        if let Some(last) = near(g, end, old, way[0]) {
            return Ok(Some(last));
        }
        if i + 1 == limit {
            return Ok(None);
        }
        let Some(w) = next_over(g, old, gone, rank, u, end, way[0]) else {
            return Ok(None);
        };
        way.push(w)?;
        gone[w as usize] = true;
    }
    Ok(None)
}

// An easy ear whose second node is v, with at most so many nodes between its ends. None where none was found, or where v is `u` or stands
// in an ear. `gone` are the marks of the nodes in ears; where there is an ear its nodes are marked there. It costs the links around each
// node that is tried.
fn easy(
    alloc: Global,
    g: &Graph,
    old: &[bool],
    rank: &[u32],
    u: u32,
    limit: u32,
    gone: &mut Vec<bool>,
    v: u32,
) -> Result<Option<Vec<u32>>, AllocError>
    requires node { v < g.now.nodes }
    requires third { mark_of old.now u ≡ false }
    requires old { length old.now ≡ g.now.nodes }
    requires gone { length gone.old.items ≡ g.now.nodes }
    requires ranks { length rank.now ≡ g.now.nodes }
    requires founded { IsFounded g.now (mark_of old.now) (entry_at rank.now) u }
    requires same { (w : ℕ) → mark_of gone.old.items w ≡ mark_of old.now w }
    ensures size { OnOk result (length gone.new.items ≡ g.now.nodes) }
    ensures ear { IfOk result (λ o. IfSome o (λ e. IsEasy g.now (mark_of old.now) (entry_at rank.now) u e.items)) }
    ensures some { IfOk result (λ o. IfSome o (λ e. (w : ℕ) → mark_of gone.new.items w ≡ with_ear (mark_of old.now) e.items w)) }
    ensures none { IfOk result (λ o. IfNone o ((w : ℕ) → mark_of gone.new.items w ≡ mark_of old.now w)) }
{
    if v == u || old[v as usize] {
        return Ok(None);
    }
    let Some(first) = near(g, v, old, g.nodes()) else {
        return Ok(None);
    };
    if !is_spared(g, gone, rank, v) {
        return Ok(None);
    }
    let mut way = [first, v].to_vec(alloc)?;
    gone[v as usize] = true;
    let end = extend_way(g, old, rank, u, limit, gone, &mut way)?;
    if let Some(last) = end
        && all_can_go(g, gone, rank, &way)
    {
        way.push(last)?;
        return Ok(Some(way));
    }
    mark(gone, &way[1..], false);
    Ok(None)
}

// An easy ear, and the place in a list of the node from which it was found.
#[derive(Drop)]
struct Found {
    place: usize,
    ear: Vec<u32>,
}

// An easy ear with at most so many nodes between its ends, over the first node of the list, from a place on, that has one; its nodes are
// marked in `gone`.
fn first_easy(
    alloc: Global,
    g: &Graph,
    old: &[bool],
    rank: &[u32],
    u: u32,
    limit: u32,
    gone: &mut Vec<bool>,
    nodes: &[u32],
    from: usize,
) -> Result<Option<Found>, AllocError>
    requires nodes { All (λ v. v < g.now.nodes) nodes.now }
    requires third { mark_of old.now u ≡ false }
    requires old { length old.now ≡ g.now.nodes }
    requires gone { length gone.old.items ≡ g.now.nodes }
    requires ranks { length rank.now ≡ g.now.nodes }
    requires founded { IsFounded g.now (mark_of old.now) (entry_at rank.now) u }
    requires same { (w : ℕ) → mark_of gone.old.items w ≡ mark_of old.now w }
    ensures size { OnOk result (length gone.new.items ≡ g.now.nodes) }
    ensures place { IfOk result (λ o. IfSome o (λ f. f.place < length nodes.now)) }
    ensures ear { IfOk result (λ o. IfSome o (λ f. IsEasy g.now (mark_of old.now) (entry_at rank.now) u f.ear.items)) }
    ensures some { IfOk result (λ o. IfSome o (λ f. (w : ℕ) → mark_of gone.new.items w ≡ with_ear (mark_of old.now) f.ear.items w)) }
    ensures none { IfOk result (λ o. IfNone o ((w : ℕ) → mark_of gone.new.items w ≡ mark_of old.now w)) }
{
    for place in from..nodes.len() {
        if let Some(ear) = easy(alloc, g, old, rank, u, limit, gone, nodes[place])? {
            return Ok(Some(Found { place, ear }));
        }
    }
    Ok(None)
}

/// The nodes that are asked for easy ears, and how many of them were.
#[derive(Drop)]
pub struct Asked {
    /// Neighbours of nodes in ears, as these were taken.
    pub near: Vec<u32>,
    /// All nodes that were left at first.
    pub all: Vec<u32>,
    /// How many of the neighbours were asked for an ear with a single node between its ends.
    pub for_one: usize,
    /// How many of them were asked for a longer ear.
    pub for_more: usize,
    /// How many of all nodes were asked.
    pub of_all: usize,
}

// So many nodes at most stand between the ends of an easy ear.
const LONGEST: u32 = 16;

/// The next easy ear; its nodes are marked in `gone`. The neighbours of ears are asked first, those that have waited longest before the
/// others, and for ears with a single node as long as there are some, so that few steps lead from a node along ears to the ends of the first.
pub fn next_easy(
    alloc: Global,
    g: &Graph,
    old: &[bool],
    rank: &[u32],
    u: u32,
    gone: &mut Vec<bool>,
    asked: &mut Asked,
) -> Result<Option<Vec<u32>>, AllocError>
    requires near { All (λ v. v < g.now.nodes) asked.old.near.items }
    requires all { All (λ v. v < g.now.nodes) asked.old.all.items }
    requires third { mark_of old.now u ≡ false }
    requires old { length old.now ≡ g.now.nodes }
    requires gone { length gone.old.items ≡ g.now.nodes }
    requires ranks { length rank.now ≡ g.now.nodes }
    requires founded { IsFounded g.now (mark_of old.now) (entry_at rank.now) u }
    requires same { (w : ℕ) → mark_of gone.old.items w ≡ mark_of old.now w }
    ensures near { OnOk result (asked.new.near.items ≡ asked.old.near.items) }
    ensures all { OnOk result (asked.new.all.items ≡ asked.old.all.items) }
    ensures size { OnOk result (length gone.new.items ≡ g.now.nodes) }
    ensures ear { IfOk result (λ o. IfSome o (λ e. IsEasy g.now (mark_of old.now) (entry_at rank.now) u e.items)) }
    ensures some { IfOk result (λ o. IfSome o (λ e. (w : ℕ) → mark_of gone.new.items w ≡ with_ear (mark_of old.now) e.items w)) }
{
    let near = &asked.near;
    if let Some(found) = first_easy(alloc, g, old, rank, u, 1, gone, near, asked.for_one)? {
        asked.for_one = found.place + 1;
        return Ok(Some(found.ear));
    }
    asked.for_one = asked.near.len();
    let near = &asked.near;
    if let Some(found) = first_easy(alloc, g, old, rank, u, LONGEST, gone, near, asked.for_more)? {
        asked.for_more = found.place + 1;
        return Ok(Some(found.ear));
    }
    asked.for_more = asked.near.len();
    let all = &asked.all;
    if let Some(found) = first_easy(alloc, g, old, rank, u, LONGEST, gone, all, asked.of_all)? {
        asked.of_all = found.place + 1;
        return Ok(Some(found.ear));
    }
    Ok(None)
}
