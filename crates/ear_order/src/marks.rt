// Marks on nodes.
ghost use Rattle.std.specs.Prelude.{◌≡◌, ◌<◌, ◌≤◌, ℕ, length, All, IfOk, IfSome, IfNone, cond, map, true, false};
ghost use Rattle.tomo_base.specs.Search.{mark_of};
ghost use Rattle.tomo_base.specs.Sets.{has};
ghost use Rattle.ear_order.specs.Ears.{in_ears};
ghost use Rattle.ear_order.specs.Turns.{AreLeft};

use std::alloc::{AllocError, Global};

/// Gives each node of a list the mark.
pub fn mark(marks: &mut Vec<bool>, nodes: &[u32], value: bool)
    requires { All (λ v. v < length marks.old.items) nodes.now }
    ensures size { length marks.new.items ≡ length marks.old.items }
    ensures marks { (v : ℕ) → mark_of marks.new.items v ≡ cond (has nodes.now v) value (mark_of marks.old.items v) }
{
    for &v in nodes {
        marks[v as usize] = value;
    }
}

/// The marks of the nodes that are left.
pub fn left(alloc: Global, old: &[bool]) -> Result<Vec<bool>, AllocError>
    ensures { IfOk result (λ rest. AreLeft old.now rest.items) }
{
    let mut rest: Vec<bool> = Vec::new(alloc);
    rest.reserve(old.len())?;
    for &mark in old {
        rest.push(!mark)?;
    }
    Ok(rest)
}

/// The marks of the nodes that stand in ears.
pub fn in_some_ear(alloc: Global, n: u32, ears: &[Vec<u32>]) -> Result<Vec<bool>, AllocError>
    requires { All (λ e. All (λ v. v < n) e) (map (λ e. e.items) ears.now) }
    ensures size { IfOk result (λ marks. length marks.items ≡ n) }
    ensures marks { IfOk result (λ marks. (v : ℕ) → mark_of marks.items v ≡ in_ears (map (λ e. e.items) ears.now) v) }
{
    let mut marks: Vec<bool> = vec![in alloc; false; n as usize]?;
    for ear in ears {
        mark(&mut marks, ear, true);
    }
    Ok(marks)
}

/// The first node without a mark.
pub fn first_unmarked(marks: &[bool]) -> Option<usize>
    ensures below { IfSome result (λ v. v < length marks.now) }
    ensures some { IfSome result (λ v. mark_of marks.now v ≡ false) }
    ensures none { IfNone result ((v : ℕ) → v < length marks.now → mark_of marks.now v ≡ true) }
{
    for (v, &mark) in marks.iter().enumerate() {
        if !mark {
            return Some(v);
        }
    }
    None
}
