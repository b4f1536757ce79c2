// Sets of nodes as marks, and back.
ghost use Rattle.std.specs.Prelude.{◌≡◌, ◌<◌, ◌≤◌, ◌||◌, ℕ, length, All, IfOk};
ghost use Rattle.tomo_base.specs.Limits.{graph_node_limit};
ghost use Rattle.tomo_base.specs.Search.{mark_of};
ghost use Rattle.tomo_base.specs.Sets.{has};

use std::alloc::{AllocError, Global};
use tomo_base::{NoMemory, NodeSet};

/// Marks the nodes of a list.
pub fn mark(marks: &mut [bool], nodes: &[u32])
    requires { All (λ v. v < length marks.old) nodes.now }
    ensures size { length marks.new ≡ length marks.old }
    ensures marks { (v : ℕ) → mark_of marks.new v ≡ (mark_of marks.old v || has nodes.now v) }
{
    for &v in nodes {
        marks[v as usize] = true;
    }
}

/// One mark for each node: whether it is in the set.
pub fn marks(alloc: Global, count: u32, set: &NodeSet) -> Result<Vec<bool>, AllocError>
    requires { All (λ v. v < count) set.now }
    ensures size { IfOk result (λ xs. length xs.items ≡ count) }
    ensures marks { IfOk result (λ xs. (v : ℕ) → mark_of xs.items v ≡ has set.now v) }
{
    let mut marks: Vec<bool> = vec![in alloc; false; count as usize]?;
    mark(&mut marks, set.as_slice());
    Ok(marks)
}

/// The set of the nodes that are marked.
pub fn marked(alloc: Global, marks: &[bool]) -> Result<NodeSet, NoMemory>
    requires { length marks.now ≤ graph_node_limit }
    ensures { IfOk result (λ set. (v : ℕ) → has set v ≡ mark_of marks.now v) }
{
    let mut set = NodeSet::new(alloc);
    for (v, &mark) in marks.iter().enumerate() {
        if mark {
            set.insert(v as u32)?;
        }
    }
    Ok(set)
}
