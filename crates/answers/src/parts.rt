// The three-blocks of all blocks of a graph, and the block of each.
ghost use Rattle.std.specs.Prelude.{ℕ, ◌≡◌, ◌↔◌, ◌≤◌, ◌<◌, ◌+◌, ◌*◌, ◌++◌, List, [], length, All, IsTrue, IfOk, OnOk, slice_index_or};
ghost use Rattle.tomo_base.specs.Limits.{node_limit};
ghost use Rattle.tomo_base.specs.Sets.{has};
ghost use Rattle.tomo_base.specs.Blocks.{IsBlock, IsThreeBlock, IsThreeBlockOf};
ghost use Rattle.tomo_base.specs.SetLists.{IsSetBelow, AreSetsWith, AreAllSets, lists_of};
ghost use Rattle.answers.specs.Components.{AreIn, AreHomes};

use blocks::ordered_sets;
use split_tree::{split, three_blocks};
use std::alloc::Global;
use tomo_base::{Graph, NoMemory, NodeSet, NodeSets};

// The three-blocks of a block of at least three nodes.
fn three_blocks_in(alloc: Global, g: &Graph, block: &NodeSet) -> Result<NodeSets, NoMemory>
    requires block { IsBlock g.now (has block.now) }
    requires nodes { IsSetBelow g.now.nodes block.now }
    requires three { 3 ≤ length block.now }
    ensures sets { IfOk result (AreSetsWith g.now.nodes (IsThreeBlockOf g.now (has block.now))) }
    ensures few { IfOk result (λ sets. length sets ≤ g.now.nodes) }
{
    let _nodes = g.nodes();
    let tree = split(alloc, g, block)?;
    three_blocks(alloc, &tree)
}

// Adds the nodes of each set.
fn add_sets(alloc: Global, sets: &NodeSets, lists: &mut Vec<Vec<u32>>) -> Result<(), NoMemory>
    ensures { OnOk result (lists_of lists.new.items ≡ lists_of lists.old.items ++ sets.now) }
{
    for i in 0..sets.len() {
        lists.push(sets.at(i).as_slice().to_vec(alloc)?)?;
    }
    Ok(())
}

/// The three-blocks of all blocks, in lexicographic order, each once.
pub fn all_three_blocks(alloc: Global, g: &Graph, blocks: &NodeSets) -> Result<NodeSets, NoMemory>
    requires blocks { AreAllSets g.now.nodes (IsBlock g.now) blocks.now }
    requires few { length blocks.now ≤ 2 * g.now.nodes }
    requires limit { g.now.nodes ≤ node_limit }
    ensures sets { IfOk result (AreAllSets g.now.nodes (IsThreeBlock g.now)) }
    ensures few { IfOk result (λ sets. length sets ≤ 2 * node_limit * node_limit) }
{
    let _nodes = g.nodes();
    let mut lists = Vec::new(alloc);
    for i in 0..blocks.len() {
        let block = blocks.at(i);
        if block.len() > 2 {
            let sets = three_blocks_in(alloc, g, block)?;
            add_sets(alloc, &sets, &mut lists)?;
        }
    }
    ordered_sets(alloc, lists)
}

// Whether each node of the one set stands in the other.
fn lies_in(set: &NodeSet, block: &NodeSet) -> bool
    ensures { IsTrue result ↔ AreIn block.now set.now }
{
    set.as_slice().iter().all(|v| block.has(*v))
}

// The number of the first block that has all nodes of a set.
fn home_of(blocks: &NodeSets, set: &NodeSet) -> u32
    requires { (i : ℕ) × (i < length blocks.now) × AreIn (slice_index_or blocks.now i []) set.now }
    ensures block { result < length blocks.now }
    ensures nodes { AreIn (slice_index_or blocks.now result []) set.now }
{
    for i in 0..blocks.len() {
        if lies_in(set, blocks.at(i)) {
            return i;
        }
    }
    unreachable!()
}

/// The number of a block that has all nodes of a set, for each of the sets.
pub fn homes(alloc: Global, blocks: &NodeSets, sets: &NodeSets) -> Result<Vec<u32>, NoMemory>
    requires { All (λ s. (i : ℕ) × (i < length blocks.now) × AreIn (slice_index_or blocks.now i []) s) sets.now }
    ensures { IfOk result (λ homes. AreHomes blocks.now sets.now homes.items) }
{
    let mut homes = Vec::new(alloc);
    for i in 0..sets.len() {
        homes.push(home_of(blocks, sets.at(i)))?;
    }
    Ok(homes)
}
