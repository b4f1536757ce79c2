// Marks on nodes.
ghost use Rattle.std.specs.Prelude.{ℕ, ◌≡◌, ◌<◌, length, All, IfOk};
ghost use Rattle.tomo_base.specs.Sets.{has};
ghost use Rattle.tomo_base.specs.Search.{mark_of};

use crate::memory::NoMemory;
use std::alloc::Global;

/// One mark for each of `n` nodes: that it stands in the list.
pub fn marks_of(alloc: Global, n: u32, nodes: &[u32]) -> Result<Vec<bool>, NoMemory>
    requires { All (λ v. v < n) nodes.now }
    ensures length { IfOk result (λ marks. length marks.items ≡ n) }
    ensures marks { IfOk result (λ marks. (v : ℕ) → mark_of marks.items v ≡ has nodes.now v) }
{
    let mut marks = vec![in alloc; false; n as usize]?;
    for &v in nodes {
        marks[v as usize] = true;
    }
    Ok(marks)
}
