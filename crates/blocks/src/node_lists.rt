// Lists of nodes as node sets, in lexicographic order.
ghost use Rattle.std.specs.Prelude.{ℕ, ◌≡◌, ◌<◌, ◌≤◌, ◌^◌, ◌↔◌, List, length, All, Contains, IfOk};
ghost use Rattle.std.specs.List.Sorted.{IsStrictlySortedBy, IsStrictlyIncreasing};
ghost use Rattle.tomo_base.specs.NodeLists.{IsNodeSet};
ghost use Rattle.tomo_base.specs.SetLists.{set_cmp, lists_of};

use std::alloc::Global;
use tomo_base::{NoMemory, NodeSet, NodeSets, sort_lists};

// The set of these nodes, which ascend.
fn set_of(alloc: Global, nodes: &[u32]) -> Result<NodeSet, NoMemory>
    requires { IsNodeSet nodes.now }
    ensures { IfOk result (λ s. s ≡ nodes.now) }
{
    let mut set = NodeSet::new(alloc);
    for &v in nodes {
        set.insert(v)?;
    }
    Ok(set)
}

/// The sets with these nodes, each of which ascends, in lexicographic order and each once. The lists are sorted and copied: of k lists with
/// m nodes in all, in the order of m log k steps.
pub fn ordered_sets(alloc: Global, mut lists: Vec<Vec<u32>>) -> Result<NodeSets, NoMemory>
    requires sets { All IsNodeSet (lists_of lists.items) }
    requires few { length lists.items < 2 ^ 32 }
    ensures ascending { IfOk result (IsStrictlySortedBy set_cmp) }
    ensures no_more { IfOk result (λ sets. length sets ≤ length lists.items) }
    ensures same { IfOk result (λ sets. (q : List ℕ) → Contains sets q ↔ Contains (lists_of lists.items) q) }
{
    sort_lists(&mut lists);
    let mut sets = NodeSets::new(alloc);
    for nodes in &lists {
        match sets.push(set_of(alloc, nodes)?) {
            Ok(()) => (),
            Err(_) => return Err(NoMemory),
        }
    }
    Ok(sets)
}
