// Nodes that can go: the others keep neighbours of lower rank.
ghost use Rattle.std.specs.Prelude.{◌≡◌, ◌≢◌, ◌<◌, ◌≤◌, ℕ, length, All, IfOk, OnOk, true, false};
ghost use Rattle.tomo_base.specs.Search.{mark_of, entry_at};
ghost use Rattle.ear_order.specs.Turns.{IsLeft};
ghost use Rattle.ear_order.specs.Easy.{IsFounded, HasLower, IsSpared, CanGo, AllCanGo};

use crate::marks::left;
use std::alloc::{AllocError, Global};
use tomo_base::{Graph, NoMemory, Swept, sweep};

/// A search of all nodes that are left, from `u`, with those far from `u` first in the order: each but `u` has a neighbour of lower rank.
pub fn founded(alloc: Global, g: &Graph, old: &[bool], u: u32) -> Result<Swept, NoMemory>
    requires { IsLeft g.now old.now u }
    ensures nodes { IfOk result (λ s. All (λ v. v < g.now.nodes) s.order.items) }
    ensures ranks { IfOk result (λ s. length s.rank.items ≡ g.now.nodes) }
    ensures founded { IfOk result (λ s. IsFounded g.now (mark_of old.now) (entry_at s.rank.items) u) }
{
    let _nodes = g.nodes();
    let rest = left(alloc, old)?;
    let mut found = sweep(alloc, g, &rest, &[u])?;
    found.order.reverse();
    Ok(found)
}

/// Whether x has a neighbour other than w that is not gone and has a rank below this one.
pub fn has_lower(g: &Graph, gone: &[bool], rank: &[u32], x: u32, below: u32, w: u32) -> bool
    requires node { x < g.now.nodes }
    requires gone { length gone.now ≡ g.now.nodes }
    requires ranks { length rank.now ≡ g.now.nodes }
    ensures yes { result ≡ true → HasLower g.now (mark_of gone.now) (entry_at rank.now) x below w }
    ensures no { result ≡ false → HasLower g.now (mark_of gone.now) (entry_at rank.now) x below w → false ≡ true }
{
    let _nodes = g.nodes();
    for hop in g.hops(x) {
        let y = hop.node;
        if !gone[y as usize] && rank[y as usize] < below && y != w {
            return true;
        }
    }
    false
}

/// Whether each neighbour of v that is not gone and has a higher rank has such a neighbour of lower rank beside v.
pub fn is_spared(g: &Graph, gone: &[bool], rank: &[u32], v: u32) -> bool
    requires node { v < g.now.nodes }
    requires gone { length gone.now ≡ g.now.nodes }
    requires ranks { length rank.now ≡ g.now.nodes }
    ensures yes { result ≡ true → IsSpared g.now (mark_of gone.now) (entry_at rank.now) v }
    ensures no { result ≡ false → IsSpared g.now (mark_of gone.now) (entry_at rank.now) v → false ≡ true }
{
    let _nodes = g.nodes();
    let mine = rank[v as usize];
    for hop in g.hops(v) {
        let x = hop.node;
        let its = rank[x as usize];
        if !gone[x as usize] && mine < its && !has_lower(g, gone, rank, x, its, v) {
            return false;
        }
    }
    true
}

// Whether v is linked to a node that is not gone, and is spared.
fn can_go(g: &Graph, gone: &[bool], rank: &[u32], v: u32) -> bool
    requires node { v < g.now.nodes }
    requires gone { length gone.now ≡ g.now.nodes }
    requires ranks { length rank.now ≡ g.now.nodes }
    ensures yes { result ≡ true → CanGo g.now (mark_of gone.now) (entry_at rank.now) v }
    ensures no { result ≡ false → CanGo g.now (mark_of gone.now) (entry_at rank.now) v → false ≡ true }
{
    has_lower(g, gone, rank, v, g.nodes(), v) && is_spared(g, gone, rank, v)
}

/// Whether all nodes of a way but its first can go.
pub fn all_can_go(g: &Graph, gone: &[bool], rank: &[u32], way: &[u32]) -> bool
    requires way { All (λ v. v < g.now.nodes) way.now }
    requires gone { length gone.now ≡ g.now.nodes }
    requires ranks { length rank.now ≡ g.now.nodes }
    ensures { result ≡ true → AllCanGo g.now (mark_of gone.now) (entry_at rank.now) way.now }
{
    for k in 1..way.len() {
        if !can_go(g, gone, rank, way[k]) {
            return false;
        }
    }
    true
}

// Puts the neighbours of the node at the end of the list.
fn add_near(g: &Graph, v: u32, nodes: &mut Vec<u32>) -> Result<(), AllocError>
    requires node { v < g.now.nodes }
    requires nodes { All (λ w. w < g.now.nodes) nodes.old.items }
    ensures { OnOk result (All (λ w. w < g.now.nodes) nodes.new.items) }
{
    let _nodes = g.nodes();
    for hop in g.hops(v) {
        nodes.push(hop.node)?;
    }
    Ok(())
}

/// Puts the neighbours of the nodes between the ends of the ear at the end of the list.
pub fn add_near_ear(g: &Graph, ear: &[u32], nodes: &mut Vec<u32>) -> Result<(), AllocError>
    requires long { 2 ≤ length ear.now }
    requires ear { All (λ v. v < g.now.nodes) ear.now }
    requires nodes { All (λ w. w < g.now.nodes) nodes.old.items }
    ensures { OnOk result (All (λ w. w < g.now.nodes) nodes.new.items) }
{
    for &v in &ear[1..ear.len() - 1] {
        add_near(g, v, nodes)?;
    }
    Ok(())
}

/// The neighbours of all marked nodes.
pub fn near_marked(alloc: Global, g: &Graph, marks: &[bool]) -> Result<Vec<u32>, AllocError>
    requires marks { length marks.now ≡ g.now.nodes }
    ensures { IfOk result (λ nodes. All (λ w. w < g.now.nodes) nodes.items) }
{
    let mut nodes = Vec::new(alloc);
    for v in 0..g.nodes() {
        if marks[v as usize] {
            add_near(g, v, &mut nodes)?;
        }
    }
    Ok(nodes)
}
