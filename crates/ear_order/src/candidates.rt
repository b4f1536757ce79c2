// Candidates for the next ear: the first, and a better one.
ghost use Rattle.std.specs.Prelude.{◌≡◌, ◌≢◌, ◌+◌, ◌-◌, ◌<◌, ◌≤◌, ℕ, Bool, true, false, length, IfOk, IfSome, IfNone};
ghost use Rattle.tomo_base.specs.Sets.{outside};
ghost use Rattle.tomo_base.specs.Search.{mark_of, entry_at};
ghost use Rattle.ear_order.specs.Ears.{IsEar, IsLast};
ghost use Rattle.ear_order.specs.Turns.{between, IsSetting, IsLeft, AreLeft, IsTurn, InSomeTurn, IsBetter, IsSpot, IsFirstPlace, IsLastPlace, IsEither, Zone, Touches, IsFreePart};

use crate::marks::mark;
use crate::near::{first_near, near};
use crate::parts::{Part, part_of};
use crate::paths::cross;
use std::alloc::{AllocError, Global};
use tomo_base::{Graph, NoMemory};

/// The last ear, where one node alone is left: over it from one neighbour to another.
pub fn last_ear(alloc: Global, g: &Graph, old: &[bool], u: u32) -> Result<Vec<u32>, AllocError>
    requires left { IsLeft g.now old.now u }
    requires alone { (v : ℕ) → v < g.now.nodes → mark_of old.now v ≡ false → v ≡ u }
    ensures ear { IfOk result (λ e. IsEar g.now (mark_of old.now) e.items) }
    ensures last { IfOk result (λ e. IsLast g.now u (mark_of old.now) e.items) }
{
    let none = g.nodes();
    let Some(first) = near(g, u, old, none) else {
        unreachable!()
    };
    let Some(second) = near(g, u, old, first) else {
        unreachable!()
    };
    let ear = [first, u, second].to_vec(alloc)?;
    Ok(ear)
}

/// The first candidate: an ear through the part of another node that is left, which leaves `u` alone.
pub fn candidate(
    alloc: Global,
    g: &Graph,
    old: &[bool],
    rest: &[bool],
    u: u32,
    x: u32,
) -> Result<Vec<u32>, NoMemory>
    requires left { IsLeft g.now old.now u }
    requires rest { AreLeft old.now rest.now }
    requires node { mark_of rest.now x ≡ true }
    requires other { x ≢ u }
    ensures ear { IfOk result (λ e. IsEar g.now (mark_of old.now) e.items) }
    ensures off { IfOk result (λ e. between e.items u ≡ false) }
{
    let none = g.nodes();
    let mut free = rest.to_vec(alloc)?;
    free[u as usize] = false;
    let part = part_of(alloc, g, &free, x)?;
    match first_near(g, &part.order, old, none) {
        Some(met) => cross(alloc, g, old, &part.inside, met.node),
        None => unreachable!(),
    }
}

// Whether the node is an outside neighbour of the marked nodes.
fn borders(g: &Graph, marks: &[bool], v: u32) -> bool
    requires node { v < g.now.nodes }
    requires marks { length marks.now ≡ g.now.nodes }
    ensures { result ≡ outside g.now (mark_of marks.now) v }
{
    !marks[v as usize] && near(g, v, marks, g.nodes()).is_some()
}

// The first place of the ear, between its ends, that touches the part.
fn first_spot(g: &Graph, ear: &[u32], part: &[bool]) -> Option<usize>
    requires nodes { (k : ℕ) → k < length ear.now → entry_at ear.now k < g.now.nodes }
    requires marks { length part.now ≡ g.now.nodes }
    requires some { 1 ≤ length ear.now }
    ensures { IsFirstPlace (IsSpot g.now (mark_of part.now) ear.now) result }
{
    let last = ear.len() - 1;
    for i in 1..last {
        if borders(g, part, ear[i]) {
            return Some(i);
        }
    }
    None
}

// The last such place.
fn last_spot(g: &Graph, ear: &[u32], part: &[bool]) -> Option<usize>
    requires nodes { (k : ℕ) → k < length ear.now → entry_at ear.now k < g.now.nodes }
    requires marks { length part.now ≡ g.now.nodes }
    requires some { 1 ≤ length ear.now }
    ensures { IsLastPlace (IsSpot g.now (mark_of part.now) ear.now) result }
{
    let mut place = ear.len() - 1;
    while 1 < place {
        place -= 1;
        if borders(g, part, ear[place]) {
            return Some(place);
        }
    }
    None
}

// The part with the ear's places up to `low`, and those from `high` on but for its ends.
fn widened(
    alloc: Global,
    part: &[bool],
    ear: &[u32],
    low: usize,
    high: usize,
) -> Result<Vec<bool>, AllocError>
    requires nodes { (k : ℕ) → k < length ear.now → entry_at ear.now k < length part.now }
    requires low { low + 1 < length ear.now }
    requires high { 1 ≤ high }
    requires end { high < length ear.now }
    ensures size { IfOk result (λ z. length z.items ≡ length part.now) }
    ensures zone { IfOk result (λ z. Zone (mark_of part.now) (entry_at ear.now) (length ear.now - 1) low high (mark_of z.items)) }
{
    let mut zone = part.to_vec(alloc)?;
    mark(&mut zone, &ear[1..low + 1], true);
    mark(&mut zone, &ear[high..ear.len() - 1], true);
    Ok(zone)
}

/// The ear, turned round if it begins with the node.
pub fn facing(ear: Vec<u32>, d: u32) -> Vec<u32>
    requires some { 1 ≤ length ear.items }
    requires ends { entry_at ear.items 0 ≢ entry_at ear.items (length ear.items - 1) }
    ensures ear { IsEither result.items ear.items }
    ensures starts { d ≢ entry_at result.items 0 }
{
    let mut ear = ear;
    if ear[0] == d {
        ear.reverse();
    }
    ear
}

// Where the part touches one old node alone: from the other end of the ear into the part, and on to that node.
fn to_end(
    alloc: Global,
    g: &Graph,
    old: &[bool],
    part: &[bool],
    ear: Vec<u32>,
    d: u32,
) -> Result<Vec<u32>, NoMemory>
    requires setting { IsSetting g.now old.now part.now }
    requires ear { IsEar g.now (mark_of old.now) ear.items }
    requires turn { InSomeTurn g.now (mark_of old.now) ear.items (mark_of part.now) }
    requires old { mark_of old.now d ≡ true }
    requires near { Touches g.now (mark_of part.now) d }
    requires single { (w : ℕ) → mark_of old.now w ≡ true → Touches g.now (mark_of part.now) w → w ≡ d }
    ensures { IfOk result (λ e. (R C : ℕ → Bool) (u : ℕ) → IsTurn g.now (mark_of old.now) ear.items (mark_of part.now) R C u → IsBetter g.now (mark_of old.now) R C e.items) }
{
    let _nodes = g.nodes();
    let ear = facing(ear, d);
    let Some(low) = first_spot(g, &ear, part) else {
        unreachable!()
    };
    let zone = widened(alloc, part, &ear, low, ear.len() - 1)?;
    cross(alloc, g, old, &zone, ear[0])
}

// Where the part touches no old node: along the ear, round the places that lie between, through the part.
fn around(
    alloc: Global,
    g: &Graph,
    old: &[bool],
    part: &[bool],
    ear: &[u32],
) -> Result<Vec<u32>, NoMemory>
    requires setting { IsSetting g.now old.now part.now }
    requires ear { IsEar g.now (mark_of old.now) ear.now }
    requires turn { InSomeTurn g.now (mark_of old.now) ear.now (mark_of part.now) }
    requires none { (w : ℕ) → mark_of old.now w ≡ true → Touches g.now (mark_of part.now) w → false ≡ true }
    ensures { IfOk result (λ e. (R C : ℕ → Bool) (u : ℕ) → IsTurn g.now (mark_of old.now) ear.now (mark_of part.now) R C u → IsBetter g.now (mark_of old.now) R C e.items) }
{
    let _nodes = g.nodes();
    let Some(low) = first_spot(g, ear, part) else {
        unreachable!()
    };
    let Some(high) = last_spot(g, ear, part) else {
        unreachable!()
    };
    let zone = widened(alloc, part, ear, low, high)?;
    cross(alloc, g, old, &zone, ear[0])
}

/// A better candidate than the ear: one that misses a node which stops the part of `u`.
pub fn better(
    alloc: Global,
    g: &Graph,
    old: &[bool],
    part: &Part,
    ear: Vec<u32>,
) -> Result<Vec<u32>, NoMemory>
    requires setting { IsSetting g.now old.now part.now.inside.items }
    requires ear { IsEar g.now (mark_of old.now) ear.items }
    requires turn { InSomeTurn g.now (mark_of old.now) ear.items (mark_of part.now.inside.items) }
    requires order { (free : ℕ → Bool) × (x : ℕ) × IsFreePart g.now free x part.now.order.items (mark_of part.now.inside.items) }
    ensures { IfOk result (λ e. (R C : ℕ → Bool) (u : ℕ) → IsTurn g.now (mark_of old.now) ear.items (mark_of part.now.inside.items) R C u → IsBetter g.now (mark_of old.now) R C e.items) }
{
    let none = g.nodes();
    let Some(first) = first_near(g, &part.order, old, none) else {
        return around(alloc, g, old, &part.inside, &ear);
    };
    match first_near(g, &part.order, old, first.node) {
        Some(_) => cross(alloc, g, old, &part.inside, first.node),
        None => to_end(alloc, g, old, &part.inside, ear, first.node),
    }
}
