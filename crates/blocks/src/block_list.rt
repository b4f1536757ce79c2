// The blocks and the cut vertices of a connected graph.
ghost use Rattle.std.specs.Prelude.{ℕ, ◌≡◌, ◌≤◌, ◌<◌, ◌*◌, ◌↔◌, [], ◌∷◌, true, length, set, All, IsTrue, IfOk, OnOk};
ghost use Rattle.tomo_base.specs.Limits.{graph_node_limit};
ghost use Rattle.tomo_base.specs.Sets.{has, members, without, Within};
ghost use Rattle.tomo_base.specs.Search.{mark_of};
ghost use Rattle.tomo_base.specs.Walks.{IsConnected, IsConnectedIn, everything};
ghost use Rattle.gate_search.specs.Stops.{IsRoom};
ghost use Rattle.tomo_base.specs.Blocks.{IsBlock, IsCutVertex};
ghost use Rattle.tomo_base.specs.SetLists.{IsSetBelow, AreSetsWith, AreAllSets, lists_of};
ghost use Rattle.blocks.specs.Working.{IsPutOff, Working, weight_of};

use crate::marks::{marked_nodes, unmark};
use crate::node_lists::ordered_sets;
use crate::sides::sides_at;
use gate_search::{Advance, GateSearch, advance_from, free_at_first, hold_way, take_free};
use std::alloc::Global;
use std::marker::Model;
use tomo_base::{Graph, NoMemory, NodeSet, NodeSets, marks_of};

/// The cut vertices and the blocks of a graph.
#[derive(Drop)]
pub struct BlockList {
    cuts: NodeSet,
    list: NodeSets,
}

impl Model for BlockList {
    ghost use Rattle.blocks.specs.Blocks.{Blocks};

    ghost Value = { Blocks };

    ghost view = { λ b. record { cuts = b.cuts; list = b.list } };
}

impl BlockList {
    /// The cut vertices. It takes no memory.
    pub fn cuts(&self) -> &NodeSet
        ensures { result.now ≡ self.now.cuts }
    {
        &self.cuts
    }

    /// The blocks, in lexicographic order. It takes no memory.
    pub fn list(&self) -> &NodeSets
        ensures { result.now ≡ self.now.list }
    {
        &self.list
    }
}

// Parts, which are connected sets that are still to be cut; sets that no node cuts; and a mark for each node: whether it has cut a set.
#[derive(Drop)]
pub struct Work {
    pub todo: Vec<Vec<u32>>,
    pub found: Vec<Vec<u32>>,
    pub cuts: Vec<bool>,
}

// All nodes of a graph of n nodes.
fn all_nodes(alloc: Global, n: u32) -> Result<Vec<u32>, NoMemory>
    ensures { IfOk result (λ all. all.items ≡ members n everything) }
{
    let mut all = Vec::new(alloc);
    for v in 0..n {
        all.push(v)?;
    }
    Ok(all)
}

// The node in the middle of a part: a long part whose nodes are numbered along it is cut near its middle.
fn middle(part: &[u32]) -> u32
    requires { 1 ≤ length part.now }
    ensures { IsTrue (has part.now result) }
{
    part[part.len() / 2]
}

// Puts what the node d of a part cuts off, with d, among the parts.
fn put_off(
    alloc: Global,
    g: &Graph,
    part: &[u32],
    side: &[u32],
    d: u32,
    work: &mut Work,
) -> Result<(), NoMemory>
    requires part { IsSetBelow g.now.nodes part.now }
    requires side { All (λ v. v < g.now.nodes) side.now }
    requires inside { Within (has side.now) (has part.now) }
    requires node { d < g.now.nodes }
    requires cut { IsTrue (has part.now d) }
    requires marks { length work.old.cuts.items ≡ g.now.nodes }
    ensures part { OnOk result (IsPutOff g.now side.now d work.old.todo.items work.new.todo.items) }
    ensures found { OnOk result (work.new.found ≡ work.old.found) }
    ensures cuts { OnOk result (work.new.cuts.items ≡ set work.old.cuts.items d true) }
{
    let mut inside = marks_of(alloc, g.nodes(), side)?;
    inside[d as usize] = true;
    work.todo.push(marked_nodes(alloc, part, &inside)?)?;
    work.cuts[d as usize] = true;
    Ok(())
}

// Lets the held nodes of a part grow that its root does not cut, and puts off what other nodes cut off, until all that is left is held:
// no node cuts it.
fn grow_block(
    alloc: Global,
    g: &Graph,
    part: &[u32],
    root: u32,
    search: &mut GateSearch,
    work: &mut Work,
) -> Result<(), NoMemory>
    requires working { Working g.now (has part.now ∷ []) work.old }
    requires part { IsSetBelow g.now.nodes part.now }
    requires root { IsTrue (has part.now root) }
    requires whole { IsConnectedIn g.now (without (has part.now) root) }
    requires room { IsRoom g.now.nodes search.old.found }
    ensures working { OnOk result (Working g.now [] work.new) }
    ensures lighter { OnOk result (weight_of g.now [] work.new < weight_of g.now (has part.now ∷ []) work.old) }
    ensures room { OnOk result (IsRoom g.now.nodes search.new.found) }
{
    let mut nodes = marks_of(alloc, g.nodes(), part)?;
    let mut free = free_at_first(alloc, g, &nodes, root)?;
    let mut starts = Vec::new(alloc);
    let mut i = 0;
    while i < part.len() {
        let x = part[i];
        if free[x as usize] {
            let start = take_free(&free, &mut starts, x);
            match advance_from(g, &nodes, &free, start, search)? {
                Advance::Way(y) => hold_way(g, search, y, &mut free, &mut starts)?,
                Advance::Cut(d) => {
                    put_off(alloc, g, part, &search.found.order, d, work)?;
                    unmark(&mut nodes, &search.found.order);
                    unmark(&mut free, &search.found.order);
                }
            }
        } else {
            i += 1;
        }
    }
    work.found.push(marked_nodes(alloc, part, &nodes)?)?;
    Ok(())
}

// The blocks, in no order, and the cut vertices: sets are cut until no node cuts any.
fn cut_up(alloc: Global, g: &Graph) -> Result<Work, NoMemory>
    requires connected { IsConnected g.now }
    requires two { 2 ≤ g.now.nodes }
    ensures blocks { IfOk result (λ w. AreSetsWith g.now.nodes (IsBlock g.now) (lists_of w.found.items)) }
    ensures few { IfOk result (λ w. length w.found.items ≤ 2 * g.now.nodes) }
    ensures cuts { IfOk result (λ w. (v : ℕ) → IsTrue (mark_of w.cuts.items v) ↔ IsCutVertex g.now v) }
    ensures marks { IfOk result (λ w. length w.cuts.items ≡ g.now.nodes) }
{
    let n = g.nodes();
    let mut search = GateSearch::new(alloc, n)?;
    let mut work = Work {
        todo: Vec::new(alloc),
        found: Vec::new(alloc),
        cuts: vec![in alloc; false; n as usize]?,
    };
    work.todo.push(all_nodes(alloc, n)?)?;
    while let Some(part) = work.todo.pop() {
        let root = middle(&part);
        match sides_at(alloc, g, &part, root)? {
            None => grow_block(alloc, g, &part, root, &mut search, &mut work)?,
            Some(sides) => {
                work.cuts[root as usize] = true;
                work.todo.push(sides.near)?;
                work.todo.push(sides.far)?;
            }
        }
    }
    Ok(work)
}

// The set of the nodes with a mark.
fn set_marked(alloc: Global, marks: &[bool]) -> Result<NodeSet, NoMemory>
    requires { length marks.now ≤ graph_node_limit }
    ensures nodes { IfOk result (λ s. (v : ℕ) → has s v ≡ mark_of marks.now v) }
    ensures set { IfOk result (IsSetBelow (length marks.now)) }
{
    let mut set = NodeSet::new(alloc);
    for v in 0..marks.len() {
        if marks[v] {
            set.insert(v as u32)?;
        }
    }
    Ok(set)
}

/// The blocks and the cut vertices of a connected graph: exactly the largest sets of two nodes or more that are connected and stay so
/// without any one node, and exactly the nodes without which the graph is not connected, ascending. After Hopcroft and Tarjan (1973), in
/// another way: not one search numbers all nodes, but from the node in the middle of a set nodes are gathered that no single other node
/// parts from it, each with a way between two gathered nodes that a search finds; where a search ends at a single gathered node, that node
/// cuts off what the search has reached, which is worked on later by itself. For each block one search of its set, and searches that stop
/// at the second gathered node: on most networks these look at each link a few times in all. A chain whose nodes are numbered along it is
/// cut in half each time; a set from which each cut takes few nodes is searched anew for each.
pub fn blocks(alloc: Global, g: &Graph) -> Result<BlockList, NoMemory>
    requires connected { IsConnected g.now }
    requires two { 2 ≤ g.now.nodes }
    ensures cuts { IfOk result (λ b. (v : ℕ) → IsTrue (has b.cuts v) ↔ IsCutVertex g.now v) }
    ensures ascending { IfOk result (λ b. IsSetBelow g.now.nodes b.cuts) }
    ensures blocks { IfOk result (λ b. AreAllSets g.now.nodes (IsBlock g.now) b.list) }
    ensures few { IfOk result (λ b. length b.list ≤ 2 * g.now.nodes) }
{
    let _nodes = g.nodes();
    let work = cut_up(alloc, g)?;
    let cuts = set_marked(alloc, &work.cuts)?;
    let list = ordered_sets(alloc, work.found)?;
    Ok(BlockList { cuts, list })
}
