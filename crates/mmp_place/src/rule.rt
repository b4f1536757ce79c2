// The placement rule.
ghost use Rattle.std.specs.Prelude.{◌≡◌, ◌<◌, ◌≤◌, ℕ, All, IfOk, OnOk, length, nat_lt};
ghost use Rattle.std.specs.List.Sorted.{IsStrictlyIncreasing};
ghost use Rattle.tomo_base.specs.Sets.{has};
ghost use Rattle.tomo_base.specs.Walks.{IsConnected};
ghost use Rattle.tomo_base.specs.Lowest.{IsLowest};
ghost use Rattle.tomo_base.specs.Blocks.{IsBlock, IsThreeBlockOf};
ghost use Rattle.tomo_base.specs.SetLists.{IsSetBelow, AreSetsWith};
ghost use Rattle.mmp_place.specs.Rule.{narrow, filled_each, IsPlacedByRule};
ghost use Rattle.mmp_place.specs.Steps.{FillsThreeBlocks, large};

use crate::filling::{fill, fill_each};
use blocks::blocks;
use split_tree::{split, three_blocks};
use std::alloc::Global;
use tomo_base::{Graph, NoMemory, NodeSet, NodeSets};

// A node of fewer neighbours has to be a monitor.
const WIDE: usize = 3;

// Blocks of no more nodes are not filled.
const SMALL: u32 = 2;

// The nodes of degree below three.
fn narrow_nodes(alloc: Global, g: &Graph) -> Result<NodeSet, NoMemory>
    ensures { IfOk result (λ found. (v : ℕ) → has found v ≡ narrow g.now v) }
{
    let mut found = NodeSet::new(alloc);
    for v in 0..g.nodes() {
        if g.hops(v).len() < WIDE {
            found.insert(v)?;
        }
    }
    Ok(found)
}

// All nodes.
fn all_nodes(alloc: Global, g: &Graph) -> Result<NodeSet, NoMemory>
    ensures { IfOk result (λ all. (v : ℕ) → has all v ≡ nat_lt v g.now.nodes) }
{
    let mut all = NodeSet::new(alloc);
    for v in 0..g.nodes() {
        all.insert(v)?;
    }
    Ok(all)
}

// The three-blocks of a block of at least three nodes.
fn three_blocks_in(alloc: Global, g: &Graph, block: &NodeSet) -> Result<NodeSets, NoMemory>
    requires block { IsBlock g.now (has block.now) }
    requires nodes { IsSetBelow g.now.nodes block.now }
    requires three { 3 ≤ length block.now }
    ensures { IfOk result (AreSetsWith g.now.nodes (IsThreeBlockOf g.now (has block.now))) }
{
    let _nodes = g.nodes();
    let tree = split(alloc, g, block)?;
    three_blocks(alloc, &tree)
}

// Fills the three-blocks of the blocks.
fn fill_three_blocks(
    alloc: Global,
    g: &Graph,
    blocks: &NodeSets,
    m: &mut NodeSet,
) -> Result<(), NoMemory>
    requires nodes { All (IsSetBelow g.now.nodes) blocks.now }
    requires blocks { All (λ b. IsBlock g.now (has b)) blocks.now }
    ensures { OnOk result (FillsThreeBlocks g.now blocks.now (has m.old) (has m.new)) }
{
    for i in 0..blocks.len() {
        let block = blocks.at(i);
        if block.len() > SMALL {
            let three_blocks = three_blocks_in(alloc, g, block)?;
            fill_each(g, &three_blocks, m)?;
        }
    }
    Ok(())
}

// Fills the sets of at least three nodes.
fn fill_large(g: &Graph, sets: &NodeSets, m: &mut NodeSet) -> Result<(), NoMemory>
    requires { All (IsSetBelow g.now.nodes) sets.now }
    ensures { OnOk result ((v : ℕ) → has m.new v ≡ filled_each g.now (large sets.now) (has m.old) v) }
{
    for i in 0..sets.len() {
        let set = sets.at(i);
        if set.len() > SMALL {
            fill(g, set, m)?;
        }
    }
    Ok(())
}

/// What the placement rule places: the nodes of degree below three, and then in each three-block, each block of at least three nodes
/// and the set of all nodes the least nodes that do not count, until three count; a node counts if it is placed, or has a neighbour
/// outside the set. That is the lowest set. Beside the search for blocks and three-blocks the time is nearly linear in nodes and links.
/// After the placement MMP of Ma, He, Leung, Swami and Towsley (2013, 2014), with counts and ties of its own.
pub fn mmp(alloc: Global, g: &Graph) -> Result<NodeSet, NoMemory>
    requires connected { IsConnected g.now }
    requires three { 3 ≤ g.now.nodes }
    ensures placed { IfOk result (λ m. IsPlacedByRule g.now (has m)) }
    ensures lowest { IfOk result (λ m. IsLowest g.now (has m)) }
    ensures nodes { IfOk result (λ m. All (λ v. v < g.now.nodes) m) }
    ensures ascending { IfOk result (λ m. IsStrictlyIncreasing m) }
{
    let _nodes = g.nodes();
    let parts = blocks(alloc, g)?;
    let all = all_nodes(alloc, g)?;
    let mut m = narrow_nodes(alloc, g)?;
    fill_three_blocks(alloc, g, parts.list(), &mut m)?;
    fill_large(g, parts.list(), &mut m)?;
    fill(g, &all, &mut m)?;
    // The nodes that a set lends ascend.
    let _ascending = m.as_slice();
    Ok(m)
}
