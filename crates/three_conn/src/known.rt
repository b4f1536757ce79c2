// What is known of a set of nodes while it is looked for two nodes that part it.
ghost use Rattle.std.specs.Prelude.{◌≡◌, true, length, IfOk};
ghost use Rattle.tomo_base.specs.Search.{mark_of};
ghost use Rattle.three_conn.specs.Held.{IsKnown};

use std::alloc::Global;
use tomo_base::{Graph, NoMemory};

// No two nodes other than the root part a node that is held from the root; a mark for each node of the graph tells whether it is held.
#[derive(Drop)]
pub struct Known {
    pub root: u32,
    pub held: Vec<bool>,
}

/// Two nodes of a set, and different nodes of it, in no order, from which no link leads to the others but over the two. The number of
/// nodes of the graph stands for no node, and a node that stands twice for one.
#[derive(Drop)]
pub struct Parting {
    pub side: Vec<u32>,
    pub first: u32,
    pub second: u32,
}

/// What looking for two nodes that part a set comes to: the two and a side, or none. The error is want of memory.
pub type Sought = Result<Option<Parting>, NoMemory>;

// What one step of growing tells.
#[derive(Drop)]
pub enum Growth {
    // Whatever two nodes are taken away, this one reaches a node of the set that is not free.
    More(u32),
    // Links lead from what the search has reached to others of the set only over these two.
    Parted(u32, u32),
}

// What is known at the beginning: the root and its neighbours are held.
pub fn begin(alloc: Global, g: &Graph, nodes: &[bool], root: u32) -> Result<Known, NoMemory>
    requires marks { length nodes.now ≡ g.now.nodes }
    requires root { mark_of nodes.now root ≡ true }
    ensures root { IfOk result (λ k. k.root ≡ root) }
    ensures known { IfOk result (IsKnown g.now (mark_of nodes.now)) }
{
    let mut held = vec![in alloc; false; g.nodes() as usize]?;
    held[root as usize] = true;
    for hop in g.hops(root) {
        held[hop.node as usize] = true;
    }
    Ok(Known { root, held })
}
