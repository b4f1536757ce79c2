// Ear orders.
ghost use Rattle.std.specs.Prelude.{◌≡◌, ◌<◌, ℕ, length, IfOk, OnOk, OnErr, ◌↔◌, slice_index_or, []};
ghost use Rattle.tomo_base.specs.Cuts.{IsThreeConnected};
ghost use Rattle.tomo_base.specs.Search.{mark_of};
ghost use Rattle.ear_order.specs.Ears.{AreEnds, IsEar, with_ear, IsOrder, IsWhole, IsBegun, AddsEar, IsWholeOrder};
ghost use Rattle.ear_order.specs.Easy.{AreMarks, with_one_ear, IsLonger};
ghost use Rattle.ear_order.specs.Turns.{ContinuesWith};

use crate::candidates::facing;
use crate::easy::{Asked, next_easy};
use crate::marks::{first_unmarked, in_some_ear, mark};
use crate::sparing::{add_near_ear, founded, near_marked};
use crate::turns::next_ear;
use std::alloc::{AllocError, Global};
use std::marker::Model;
use tomo_base::{Graph, Link, NoMemory};

/// What asking for the next ear comes to.
#[derive(Clone, Copy, Debug, PartialEq, Eq)]
pub enum Step {
    /// There is one ear more.
    More,
    /// All nodes stand in ears.
    Done,
}

/// An ear order so far of a graph that stays connected without any two nodes, as of Cheriyan and Maheshwari (1988): the first ear leads from
/// one end of a link to the other, each later ear joins two nodes of earlier ones, and what is left holds the third node and stays connected.
/// Contracts see the graph, the two ends, the third node and the ears. The links are kept for contracts alone.
#[derive(Drop)]
pub struct EarOrder {
    node_count: u32,
    links: Vec<Link>,
    r: u32,
    t: u32,
    u: u32,
    ears: Vec<Vec<u32>>,
}

impl Model for EarOrder {
    ghost use Rattle.std.specs.Prelude.{map};
    ghost use Rattle.ear_order.specs.Ears.{Ears, IsOrder};

    ghost Value = { Ears };

    ghost view = { λ o. record { graph = record { nodes = o.node_count; links = o.links.items }; r = o.r; t = o.t; u = o.u; list = map (λ e. e.items) o.ears.items } };

    ghost invariant = { λ o. IsOrder (record { graph = record { nodes = o.node_count; links = o.links.items }; r = o.r; t = o.t; u = o.u; list = map (λ e. e.items) o.ears.items }) };
}

impl EarOrder {
    /// The order with its first ear, from `r` to `t`. It costs at most as many turns as there are nodes, each a few searches of the graph
    /// (Cheriyan and Maheshwari 1988).
    pub fn start(alloc: Global, g: &Graph, r: u32, t: u32, u: u32) -> Result<EarOrder, NoMemory>
        requires three { IsThreeConnected g.now }
        requires ends { AreEnds g.now r t u }
        ensures begun { IfOk result (IsBegun g.now r t u) }
        ensures order { IfOk result IsOrder }
    {
        let n = g.nodes();
        let mut old = vec![in alloc; false; n as usize]?;
        old[r as usize] = true;
        old[t as usize] = true;
        let first = facing(next_ear(alloc, g, &old, u)?, t);
        let links = g.links().to_vec(alloc)?;
        let mut ears: Vec<Vec<u32>> = Vec::new(alloc);
        ears.push(first)?;
        Ok(EarOrder {
            node_count: n,
            links,
            r,
            t,
            u,
            ears,
        })
    }

    /// Adds an ear, or answers that all nodes stand in ears. After want of memory the order is as before. It costs at most as many turns as
    /// there are nodes, each a few searches of the graph (Cheriyan and Maheshwari 1988).
    pub fn next(&mut self, alloc: Global, g: &Graph) -> Result<Step, NoMemory>
        requires { self.old.graph ≡ g.now }
        ensures more { IfOk result (λ s. s ≡ Step.More → AddsEar self.old self.new) }
        ensures done { IfOk result (λ s. s ≡ Step.Done → self.new ≡ self.old) }
        ensures whole { IfOk result (λ s. (s ≡ Step.Done) ↔ IsWhole self.old.graph self.old.list) }
        ensures order { OnOk result (IsOrder self.new) }
        ensures err { OnErr result (self.new ≡ self.old) }
    {
        let mut old = self.marks(alloc)?;
        let Some(_unmarked) = first_unmarked(&old) else {
            return Ok(Step::Done);
        };
        let ear = next_ear(alloc, g, &old, self.u)?;
        self.put(&mut old, ear)?;
        Ok(Step::More)
    }

    // The marks of the nodes that stand in ears.
    fn marks(&self, alloc: Global) -> Result<Vec<bool>, AllocError>
        ensures { IfOk result (λ marks. AreMarks self.now marks.items) }
    {
        in_some_ear(alloc, self.node_count, &self.ears)
    }

    // Adds the ear, and marks its nodes. After want of memory the order is as before.
    fn put(&mut self, old: &mut Vec<bool>, ear: Vec<u32>) -> Result<(), AllocError>
        requires order { IsOrder self.old }
        requires marks { AreMarks self.old old.old.items }
        requires ear { IsEar self.old.graph (mark_of old.old.items) ear.items }
        requires next { ContinuesWith self.old.graph self.old.u (mark_of old.old.items) ear.items }
        ensures added { OnOk result (self.new ≡ with_one_ear self.old ear.items) }
        ensures marks { OnOk result (AreMarks self.new old.new.items) }
        ensures more { OnOk result ((v : ℕ) → mark_of old.new.items v ≡ with_ear (mark_of old.old.items) ear.items v) }
        ensures order { OnOk result (IsOrder self.new) }
        ensures err { OnErr result (self.new ≡ self.old) }
    {
        mark(old, &ear, true);
        self.ears.push(ear)?;
        Ok(())
    }

    /// How many ears there are. It takes no memory.
    pub fn len(&self) -> u32
        ensures len { result ≡ length self.now.list }
        ensures order { IsOrder self.now }
    {
        self.ears.len() as u32
    }

    /// The ear at a place, counted from 0. It takes no memory.
    pub fn ear(&self, i: u32) -> &[u32]
        requires { i < length self.now.list }
        ensures { result.now ≡ slice_index_or self.now.list i [] }
    {
        &self.ears[i as usize]
    }
}

// Adds easy ears, one after the other, until no node has one: the neighbours of each node that an ear takes are asked, and all others where
// those have none. It costs one search of the graph, and a few looks around each node that is asked.
fn add_easy(ears: &mut EarOrder, alloc: Global, g: &Graph, u: u32) -> Result<(), NoMemory>
    requires graph { ears.old.graph ≡ g.now }
    requires third { ears.old.u ≡ u }
    requires order { IsOrder ears.old }
    ensures longer { OnOk result (IsLonger ears.old ears.new) }
    ensures order { OnOk result (IsOrder ears.new) }
{
    let mut old = ears.marks(alloc)?;
    if old[u as usize] {
        return Ok(());
    }
    let tree = founded(alloc, g, &old, u)?;
    let mut asked = Asked {
        near: near_marked(alloc, g, &old)?,
        all: tree.order,
        for_one: 0,
        for_more: 0,
        of_all: 0,
    };
    let mut gone = old.to_vec(alloc)?;
    while let Some(ear) = next_easy(alloc, g, &old, &tree.rank, u, &mut gone, &mut asked)? {
        add_near_ear(g, &ear, &mut asked.near)?;
        ears.put(&mut old, ear)?;
    }
    Ok(())
}

/// An ear order of all nodes, as of Cheriyan and Maheshwari (1988). Nearly all ears are easy: they are found by a few looks around
/// their nodes, once a search has given each node that is left a rank. Where no node has an easy ear, one is found by a few searches a
/// turn, at most as many turns as there are nodes, and the ranks are given anew: a handful of times in networks of a thousand nodes.
pub fn order(alloc: Global, g: &Graph, r: u32, t: u32, u: u32) -> Result<EarOrder, NoMemory>
    requires three { IsThreeConnected g.now }
    requires ends { AreEnds g.now r t u }
    ensures { IfOk result (IsWholeOrder g.now r t u) }
{
    let mut ears = EarOrder::start(alloc, g, r, t, u)?;
    loop {
        add_easy(&mut ears, alloc, g, u)?;
        match ears.next(alloc, g)? {
            Step::More => {}
            Step::Done => return Ok(ears),
        }
    }
}
