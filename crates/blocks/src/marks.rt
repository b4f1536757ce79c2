// Marks on nodes.
ghost use Rattle.std.specs.Prelude.{ℕ, ◌≡◌, ◌<◌, length, All, IfOk};
ghost use Rattle.std.specs.List.{filter};
ghost use Rattle.tomo_base.specs.Sets.{has, minus};
ghost use Rattle.tomo_base.specs.Search.{mark_of};

use std::alloc::Global;
use tomo_base::NoMemory;

/// The nodes of the list that have a mark, in its order.
pub fn marked_nodes(alloc: Global, nodes: &[u32], marks: &[bool]) -> Result<Vec<u32>, NoMemory>
    requires { All (λ v. v < length marks.now) nodes.now }
    ensures { IfOk result (λ kept. kept.items ≡ filter (mark_of marks.now) nodes.now) }
{
    let mut kept = Vec::new(alloc);
    for &v in nodes {
        if marks[v as usize] {
            kept.push(v)?;
        }
    }
    Ok(kept)
}

// Takes their marks from the nodes of the list.
pub fn unmark(marks: &mut Vec<bool>, nodes: &[u32])
    requires { All (λ v. v < length marks.old.items) nodes.now }
    ensures length { length marks.new.items ≡ length marks.old.items }
    ensures marks { (v : ℕ) → mark_of marks.new.items v ≡ minus (mark_of marks.old.items) (has nodes.now) v }
{
    for &v in nodes {
        marks[v as usize] = false;
    }
}
