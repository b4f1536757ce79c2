// Numbers and third parents, from the order of the nodes.
ghost use Rattle.std.specs.Prelude.{◌≡◌, ◌<◌, ◌≤◌, ℕ, length, All, IfOk, nat_lt, true, false};
ghost use Rattle.std.specs.List.{filter};
ghost use Rattle.tomo_base.specs.Limits.{graph_node_limit};
ghost use Rattle.tomo_base.specs.Network.{linked};
ghost use Rattle.tomo_base.specs.Sets.{has};
ghost use Rattle.tomo_base.specs.Search.{entry_at};
ghost use Rattle.indep_trees.specs.Placing.{In, Distinct};
ghost use Rattle.indep_trees.specs.Numbers.{spot, HasLater};

use std::alloc::Global;
use tomo_base::{Graph, NoMemory, NodeSet};

/// The place of each node among the nodes below n.
pub fn numbered(alloc: Global, n: u32, order: &[u32]) -> Result<Vec<u32>, NoMemory>
    requires few { length order.now ≤ graph_node_limit }
    requires different { Distinct order.now }
    ensures size { IfOk result (λ numbers. length numbers.items ≡ n) }
    ensures numbers { IfOk result (λ numbers. (v : ℕ) → v < n → In v order.now → entry_at numbers.items v ≡ spot v (filter (λ w. nat_lt w n) order.now)) }
{
    let mut numbers = vec![in alloc; 0; n as usize]?;
    let mut next: u32 = 0;
    for &v in order {
        if v < n {
            numbers[v as usize] = next;
            next += 1;
        }
    }
    Ok(numbers)
}

/// A neighbour on a later ear.
fn later(g: &Graph, ears: &[u32], v: u32) -> u32
    requires node { v < g.now.nodes }
    requires ears { length ears.now ≡ g.now.nodes }
    requires later { HasLater g.now (entry_at ears.now) v }
    ensures link { linked g.now v result ≡ true }
    ensures later { entry_at ears.now v < entry_at ears.now result }
{
    let _nodes = g.nodes();
    let mine = ears[v as usize];
    for hop in g.hops(v) {
        if ears[hop.node as usize] > mine {
            return hop.node;
        }
    }
    unreachable!()
}

/// A neighbour on a later ear for each node below n that is not in the set.
pub fn all_later(
    alloc: Global,
    n: u32,
    g: &Graph,
    ears: &[u32],
    m: &NodeSet,
) -> Result<Vec<u32>, NoMemory>
    requires nodes { n ≤ g.now.nodes }
    requires ears { length ears.now ≡ g.now.nodes }
    requires later { (v : ℕ) → v < n → has m.now v ≡ false → HasLater g.now (entry_at ears.now) v }
    ensures size { IfOk result (λ third. length third.items ≡ n) }
    ensures link { IfOk result (λ third. (v : ℕ) → v < n → has m.now v ≡ false → linked g.now v (entry_at third.items v) ≡ true) }
    ensures later { IfOk result (λ third. (v : ℕ) → v < n → has m.now v ≡ false → entry_at ears.now v < entry_at ears.now (entry_at third.items v)) }
{
    let mut third: Vec<u32> = Vec::new(alloc);
    for v in 0..n {
        third.push(if m.has(v) { v } else { later(g, ears, v) })?;
    }
    Ok(third)
}
