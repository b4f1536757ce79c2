// All pairs of nodes.
ghost use Rattle.std.specs.Prelude.{◌≡◌, ◌<◌, ◌++◌, IfOk, OnOk};
ghost use Rattle.drill.specs.Generated as spec;
ghost use Rattle.drill.specs.Generated.{pairs_of};

use std::alloc::Global;
use tomo_base::{Link, NoMemory};

// Adds the pairs of a node with the nodes above it.
fn add_pairs(a: u32, n: u32, pairs: &mut Vec<Link>) -> Result<(), NoMemory>
    requires { a < n }
    ensures { OnOk result (pairs.new.items ≡ pairs.old.items ++ pairs_of a n) }
{
    for b in a + 1..n {
        pairs.push(Link { a, b })?;
    }
    Ok(())
}

/// All pairs of nodes below `n`, in lexicographic order.
pub(crate) fn all_pairs(alloc: Global, n: u32) -> Result<Vec<Link>, NoMemory>
    ensures { IfOk result (λ pairs. pairs.items ≡ spec.pairs n) }
{
    let mut pairs = Vec::new(alloc);
    for a in 0..n {
        add_pairs(a, n, &mut pairs)?;
    }
    Ok(pairs)
}
