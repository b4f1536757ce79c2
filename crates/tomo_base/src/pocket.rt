// Pockets: node sets with at most two outside neighbours, and the monitors that each of them needs.
ghost use Rattle.std.specs.Prelude.{◌≡◌, ◌<◌, ◌≤◌, ◌+◌, ◌^◌, ◌||◌, ◌++◌, ℕ, Bool, [], ◌∷◌, All, length, OnOk, IfErr, OnErr, slice_get, Some};
ghost use Rattle.tomo_base.specs.Sets.{has, outside};
ghost use Rattle.tomo_base.specs.Met.{AreMet, is_new};
ghost use Rattle.tomo_base.specs.Pockets.{need_of};

use crate::graph::{Graph, Hop};
use crate::met::Met;
use crate::node_set::NodeSet;
use std::alloc::Global;
use std::marker::Model;

/// A pocket, and how many monitors it needs.
#[derive(Drop)]
pub struct Pocket {
    pub nodes: NodeSet,
    pub need: u32,
}

/// A list of pockets.
#[derive(Drop)]
pub struct Pockets {
    pockets: Vec<Pocket>,
}

impl Model for Pockets {
    ghost use Rattle.std.specs.Prelude.{List, ◌<◌, ◌^◌, vec_len};
    ghost use Rattle.tomo_base.specs.declared.pocket.Pocket.{Pocket};

    ghost Value = { List Pocket };

    ghost view = { λ p. p.pockets.items };

    ghost invariant = { λ p. vec_len p.pockets < 2 ^ 32 };
}

impl Pockets {
    /// No pockets. It takes no memory.
    pub fn new(alloc: Global) -> Pockets
        ensures { result ≡ [] }
    {
        Pockets {
            pockets: Vec::new(alloc),
        }
    }

    /// Adds a pocket at the end. The error hands the pocket back, and comes for want of memory alone.
    pub fn push(&mut self, pocket: Pocket) -> Result<(), Pocket>
        requires { length self.old + 1 < 2 ^ 32 }
        ensures ok { OnOk result (self.new ≡ self.old ++ pocket ∷ []) }
        ensures handed_back { IfErr result (λ p. p ≡ pocket) }
        ensures err { OnErr result (self.new ≡ self.old) }
    {
        match self.pockets.push(pocket) {
            Ok(()) => Ok(()),
            Err(refused) => Err(refused.value),
        }
    }

    /// How many pockets there are.
    pub fn len(&self) -> u32
        ensures { result ≡ length self.now }
    {
        self.pockets.len() as u32
    }

    /// The pocket at a place, counted from 0.
    pub fn at(&self, i: u32) -> &Pocket
        requires { i < length self.now }
        ensures { slice_get self.now i ≡ Some result.now }
    {
        &self.pockets[i as usize]
    }
}

/// How many monitors every identifying set has in the pocket, at least: the number of its nodes, and no more than 3 less the
/// number of its outside neighbours; 0 where it has more than two of these. It takes no memory: a search in the pocket for each hop
/// of its nodes.
pub fn need(g: &Graph, p: &NodeSet) -> u32
    requires filled { 1 ≤ length p.now }
    requires nodes { All (λ v. v < g.now.nodes) p.now }
    ensures { result ≡ need_of g.now (has p.now) }
{
    let _nodes = g.nodes();
    let outside = outside_met(g, p).count();
    p.len().min(3u32 - outside)
}

// The outside neighbours of the nodes.
fn outside_met(g: &Graph, p: &NodeSet) -> Met
    requires { All (λ v. v < g.now.nodes) p.now }
    ensures { AreMet g.now.nodes (outside g.now (has p.now)) result }
{
    let _nodes = g.nodes();
    let mut met = Met::None;
    for &v in p.as_slice() {
        met = meet(g.hops(v), p, met);
    }
    met
}

// The nodes met, after those outside the set to which the hops lead.
fn meet(hops: &[Hop], p: &NodeSet, before: Met) -> Met
    ensures { (n : ℕ) (q : ℕ → Bool) → All (λ h. h.node < n) hops.now → AreMet n q before → AreMet n (λ w. q w || is_new p.now hops.now w) result }
{
    let mut met = before;
    for hop in hops {
        if !p.has(hop.node) {
            met = met.with(hop.node);
        }
    }
    met
}
