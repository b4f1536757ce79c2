// Marks on nodes.
ghost use Rattle.std.specs.Prelude.{◌≡◌, ◌<◌, ◌≤◌, ◌&&◌, ℕ, Bool, true, false, not, length, IfOk, IfSome, IfNone};
ghost use Rattle.tomo_base.specs.Limits.{graph_node_limit};
ghost use Rattle.tomo_base.specs.Search.{mark_of, entry_at};
ghost use Rattle.three_conn.specs.Held.{IsRest};
ghost use Rattle.tomo_base.specs.Parting.{without_two};

use std::alloc::Global;
use tomo_base::NoMemory;

// Marks on the nodes of the set that are not held.
pub fn rest(alloc: Global, nodes: &[bool], held: &[bool]) -> Result<Vec<bool>, NoMemory>
    requires { length held.now ≡ length nodes.now }
    ensures marks { IfOk result (λ free. length free.items ≡ length nodes.now) }
    ensures rest { IfOk result (λ free. IsRest (mark_of nodes.now) (mark_of held.now) (mark_of free.items)) }
{
    let mut free = nodes.to_vec(alloc)?;
    for v in 0..held.len() {
        if held[v] {
            free[v] = false;
        }
    }
    Ok(free)
}

// Marks on the nodes of the set but two.
pub fn all_but(alloc: Global, nodes: &[bool], c: u32, d: u32) -> Result<Vec<bool>, NoMemory>
    requires first { c < length nodes.now }
    requires second { d < length nodes.now }
    ensures marks { IfOk result (λ free. length free.items ≡ length nodes.now) }
    ensures free { IfOk result (λ free. (v : ℕ) → mark_of free.items v ≡ without_two (mark_of nodes.now) c d v) }
{
    let mut free = nodes.to_vec(alloc)?;
    free[c as usize] = false;
    free[d as usize] = false;
    Ok(free)
}

// The first node with a mark, from a node on.
pub fn first_marked(marks: &[bool]) -> Option<u32>
    requires { length marks.now ≤ graph_node_limit }
    ensures found { IfSome result (λ v. (v < length marks.now) × (mark_of marks.now v ≡ true)) }
    ensures none { IfNone result ((v : ℕ) → mark_of marks.now v ≡ false) }
{
    for v in 0..marks.len() {
        if marks[v] {
            return Some(v as u32);
        }
    }
    None
}

// The first free node that a search has not reached.
pub fn first_missed(free: &[bool], rank: &[u32]) -> Option<u32>
    requires few { length free.now ≤ graph_node_limit }
    requires ranks { length rank.now ≡ length free.now }
    ensures found { IfSome result (λ v. (v < length free.now) × (mark_of free.now v ≡ true) × (length free.now ≤ entry_at rank.now v)) }
    ensures none { IfNone result ((v : ℕ) → mark_of free.now v ≡ true → entry_at rank.now v < length free.now) }
{
    for v in 0..free.len() {
        if free[v] && rank[v] as usize >= free.len() {
            return Some(v as u32);
        }
    }
    None
}
