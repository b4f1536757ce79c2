// Marks on nodes.
ghost use Rattle.std.specs.Prelude.{ℕ, ◌≡◌, ◌<◌, ◌||◌, ◌==◌, length, All, IfOk};
ghost use Rattle.tomo_base.specs.Sets.{has, minus};
ghost use Rattle.tomo_base.specs.Search.{mark_of};

use std::alloc::Global;
use tomo_base::{Link, NoMemory, marks_of};

// Marks on the nodes of the list and on both ends of the link.
pub fn marks_with(alloc: Global, n: u32, nodes: &[u32], pair: Link) -> Result<Vec<bool>, NoMemory>
    requires nodes { All (λ v. v < n) nodes.now }
    requires first { pair.a < n }
    requires second { pair.b < n }
    ensures length { IfOk result (λ marks. length marks.items ≡ n) }
    ensures marks { IfOk result (λ marks. (v : ℕ) → mark_of marks.items v ≡ (has nodes.now v || ((v == pair.a) || (v == pair.b)))) }
{
    let mut marks = marks_of(alloc, n, nodes)?;
    marks[pair.a as usize] = true;
    marks[pair.b as usize] = true;
    Ok(marks)
}

// Marks on the nodes of the list that do not stand in the other.
pub fn marks_without(
    alloc: Global,
    n: u32,
    nodes: &[u32],
    out: &[u32],
) -> Result<Vec<bool>, NoMemory>
    requires nodes { All (λ v. v < n) nodes.now }
    requires out { All (λ v. v < n) out.now }
    ensures length { IfOk result (λ marks. length marks.items ≡ n) }
    ensures marks { IfOk result (λ marks. (v : ℕ) → mark_of marks.items v ≡ minus (has nodes.now) (has out.now) v) }
{
    let mut marks = marks_of(alloc, n, nodes)?;
    for &v in out {
        marks[v as usize] = false;
    }
    Ok(marks)
}
