// Searches over a graph.
ghost use Rattle.std.specs.Prelude.{◌≡◌, ◌≢◌, ◌≤◌, ◌<◌, ◌+◌, ◌++◌, [], ◌∷◌, ℕ, Bool, List, length, set, true, All, AllPairs, IfOk, OnOk, IfSome, IfNone};
ghost use Rattle.tomo_base.specs.Limits.{graph_node_limit};
ghost use Rattle.tomo_base.specs.Search.{mark_of, entry_at, AreRanked, IsSearch, IsSweep};
ghost use Rattle.tomo_base.specs.Walks.{Reaches, IsConnected, everything};

use crate::graph::Graph;
use crate::memory::NoMemory;
use std::alloc::{AllocError, Global};

/// What a search found.
#[derive(Drop)]
pub struct Swept {
    /// The nodes that were reached, in this order; the seeds come first.
    pub order: Vec<u32>,
    /// For each node that was reached the node from which it was reached; for a seed itself.
    pub parent: Vec<u32>,
    /// For each node that was reached its place in the order; for each other node the number of nodes.
    pub rank: Vec<u32>,
}

/// Puts a node at the end of the order.
pub fn reach(node: u32, from: u32, found: &mut Swept) -> Result<(), AllocError>
    requires few { length found.old.order.items ≤ graph_node_limit }
    requires parent { node < length found.old.parent.items }
    requires rank { node < length found.old.rank.items }
    ensures order { OnOk result (found.new.order.items ≡ found.old.order.items ++ node ∷ []) }
    ensures parents { OnOk result (found.new.parent.items ≡ set found.old.parent.items node from) }
    ensures ranks { OnOk result (found.new.rank.items ≡ set found.old.rank.items node (length found.old.order.items)) }
{
    let place = found.order.len() as u32;
    found.order.push(node)?;
    found.parent[node as usize] = from;
    found.rank[node as usize] = place;
    Ok(())
}

// A search that has reached the seeds.
fn plant(alloc: Global, n: u32, seeds: &[u32]) -> Result<Swept, NoMemory>
    requires few { n ≤ graph_node_limit }
    requires nodes { All (λ v. v < n) seeds.now }
    requires different { AllPairs (λ u v. u ≢ v) seeds.now }
    ensures order { IfOk result (λ s. s.order.items ≡ seeds.now) }
    ensures ranks { IfOk result (λ s. (free : List Bool) → All (λ v. mark_of free v ≡ true) seeds.now → AreRanked n free s.order.items s.rank.items) }
    ensures parents { IfOk result (λ s. length s.parent.items ≡ n) }
    ensures roots { IfOk result (λ s. All (λ v. entry_at s.parent.items v ≡ v) seeds.now) }
{
    let mut found = Swept {
        order: Vec::new(alloc),
        parent: vec![in alloc; 0; n as usize]?,
        rank: vec![in alloc; n; n as usize]?,
    };
    for &seed in seeds {
        reach(seed, seed, &mut found)?;
    }
    Ok(found)
}

/// Reaches the free neighbours of the node at the place `head` of the order. Time is linear in its links.
pub fn look(g: &Graph, free: &[bool], head: usize, found: &mut Swept) -> Result<(), AllocError>
    requires marks { length free.now ≡ g.now.nodes }
    requires place { head < length found.old.order.items }
    requires ranks { AreRanked g.now.nodes free.now found.old.order.items found.old.rank.items }
    requires parents { length found.old.parent.items ≡ g.now.nodes }
    ensures place { OnOk result (head < length found.new.order.items) }
    ensures searched { OnOk result ((seeds : List ℕ) → IsSearch g.now free.now seeds head found.old.order.items found.old.parent.items found.old.rank.items →
        IsSearch g.now free.now seeds (head + 1) found.new.order.items found.new.parent.items found.new.rank.items) }
    ensures longer { OnOk result (length found.old.order.items ≤ length found.new.order.items) }
    ensures kept { OnOk result ((k : ℕ) → k < length found.old.order.items → entry_at found.new.order.items k ≡ entry_at found.old.order.items k) }
{
    let n = g.nodes();
    let node = found.order[head];
    for hop in g.hops(node) {
        if free[hop.node as usize] && found.rank[hop.node as usize] == n {
            reach(hop.node, node, found)?;
        }
    }
    Ok(())
}

/// Searches from the seeds over the free nodes: reaches exactly the free nodes to which walks over free nodes lead from a seed.
/// The seeds are different free nodes. Time is linear in nodes and links.
pub fn sweep(alloc: Global, g: &Graph, free: &[bool], seeds: &[u32]) -> Result<Swept, NoMemory>
    requires marks { length free.now ≡ g.now.nodes }
    requires nodes { All (λ v. v < g.now.nodes) seeds.now }
    requires free { All (λ v. mark_of free.now v ≡ true) seeds.now }
    requires different { AllPairs (λ u v. u ≢ v) seeds.now }
    ensures { IfOk result (IsSweep g.now free.now seeds.now) }
{
    let mut found = plant(alloc, g.nodes(), seeds)?;
    let mut head = 0;
    while head < found.order.len() {
        look(g, free, head, &mut found)?;
        head += 1;
    }
    Ok(found)
}

/// The least node that no walk joins to node 0.
pub fn first_apart(alloc: Global, g: &Graph) -> Result<Option<u32>, NoMemory>
    requires { 1 ≤ g.now.nodes }
    ensures none { IfOk result (λ o. IfNone o (IsConnected g.now)) }
    ensures node { IfOk result (λ o. IfSome o (λ v. v < g.now.nodes)) }
    ensures apart { IfOk result (λ o. IfSome o (λ v. Reaches g.now everything 0 v → ⊥)) }
    ensures least { IfOk result (λ o. IfSome o (λ v. (w : ℕ) → w < v → Reaches g.now everything 0 w)) }
{
    let n = g.nodes();
    let free = vec![in alloc; true; n as usize]?;
    let found = sweep(alloc, g, &free, &[0])?;
    for v in 0..n {
        if found.rank[v as usize] == n {
            return Ok(Some(v));
        }
    }
    Ok(None)
}
