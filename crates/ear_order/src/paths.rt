// Paths through a zone from one old node to another.
ghost use Rattle.std.specs.Prelude.{◌≡◌, ◌≢◌, ◌<◌, ◌-◌, ℕ, Bool, true, false, length, IfOk};
ghost use Rattle.std.specs.List.{AllWithin};
ghost use Rattle.tomo_base.specs.Network.{linked};
ghost use Rattle.tomo_base.specs.Sets.{has};
ghost use Rattle.tomo_base.specs.Search.{mark_of, entry_at};
ghost use Rattle.ear_order.specs.Ears.{IsEar};
ghost use Rattle.ear_order.specs.Crossing.{Crosses};
ghost use Rattle.ear_order.specs.Paths.{AreSeeds, LeadsBack, IsReached};

use crate::near::first_near;
use std::alloc::{AllocError, Global};
use tomo_base::{Graph, NoMemory, Swept, sweep};

// The neighbours of a node that are in the zone.
fn seeds(alloc: Global, g: &Graph, zone: &[bool], e: u32) -> Result<Vec<u32>, AllocError>
    requires node { e < g.now.nodes }
    requires zone { length zone.now ≡ g.now.nodes }
    ensures { IfOk result (λ s. AreSeeds g.now (mark_of zone.now) e s.items) }
{
    let _nodes = g.nodes();
    let mut seeds: Vec<u32> = Vec::new(alloc);
    for hop in g.hops(e) {
        if zone[hop.node as usize] {
            seeds.push(hop.node)?;
        }
    }
    Ok(seeds)
}

// The search through the zone from the neighbours of a node.
fn reach(alloc: Global, g: &Graph, zone: &[bool], e: u32) -> Result<Swept, NoMemory>
    requires node { e < g.now.nodes }
    requires zone { length zone.now ≡ g.now.nodes }
    ensures { IfOk result (λ s. IsReached g.now (mark_of zone.now) e s) }
{
    let _nodes = g.nodes();
    let seeds = seeds(alloc, g, zone, e)?;
    sweep(alloc, g, zone, &seeds)
}

// The path from `z` over the reached node at a place back to `e`.
fn trail(
    alloc: Global,
    g: &Graph,
    found: &Swept,
    place: usize,
    z: u32,
    e: u32,
) -> Result<Vec<u32>, AllocError>
    requires back { LeadsBack g.now e found.now }
    requires place { place < length found.now.order.items }
    requires link { linked g.now (entry_at found.now.order.items place) z ≡ true }
    ensures ear { IfOk result (λ p. (old : ℕ → Bool) → old z ≡ true → old e ≡ true → z ≢ e → ((v : ℕ) → has found.now.order.items v ≡ true → old v ≡ false) → IsEar g.now old p.items) }
    ensures over { IfOk result (λ p. AllWithin (λ v. has found.now.order.items v ≡ true) p.items 1 (length p.items - 1)) }
{
    let mut path: Vec<u32> = Vec::new(alloc);
    path.push(z)?;
    let mut v = found.order[place];
    while found.parent[v as usize] != v {
        path.push(v)?;
        v = found.parent[v as usize];
    }
    path.push(v)?;
    path.push(e)?;
    Ok(path)
}

/// A path through the zone from another old node to this one, where a path must cross.
pub fn cross(
    alloc: Global,
    g: &Graph,
    old: &[bool],
    zone: &[bool],
    e: u32,
) -> Result<Vec<u32>, NoMemory>
    requires old { length old.now ≡ g.now.nodes }
    requires zone { length zone.now ≡ g.now.nodes }
    requires start { mark_of old.now e ≡ true }
    requires off { (v : ℕ) → mark_of zone.now v ≡ true → mark_of old.now v ≡ false }
    requires crosses { Crosses g.now (mark_of old.now) (mark_of zone.now) e }
    ensures ear { IfOk result (λ p. IsEar g.now (mark_of old.now) p.items) }
    ensures through { IfOk result (λ p. AllWithin (λ v. mark_of zone.now v ≡ true) p.items 1 (length p.items - 1)) }
{
    let found = reach(alloc, g, zone, e)?;
    match first_near(g, &found.order, old, e) {
        Some(met) => Ok(trail(alloc, g, &found, met.place, met.node, e)?),
        None => unreachable!(),
    }
}
