// Lists of nodes from which searches may start.
ghost use Rattle.std.specs.Prelude.{◌≡◌, ◌<◌, true, length, All, OnOk};
ghost use Rattle.tomo_base.specs.Search.{mark_of};

use std::alloc::AllocError;
use tomo_base::Graph;

/// The last free node of the list, or x where it has none. It goes from the list, with all that come after it. It takes no memory.
pub fn take_free(free: &[bool], starts: &mut Vec<u32>, x: u32) -> u32
    requires starts { All (λ v. v < length free.now) starts.old.items }
    requires node { (x < length free.now) × (mark_of free.now x ≡ true) }
    ensures starts { All (λ v. v < length free.now) starts.new.items }
    ensures node { (result < length free.now) × (mark_of free.now result ≡ true) }
{
    while let Some(v) = starts.pop() {
        if free[v as usize] {
            return v;
        }
    }
    x
}

/// Puts the free neighbours of a node on the list. The error is want of memory.
pub fn add_free(g: &Graph, free: &[bool], u: u32, starts: &mut Vec<u32>) -> Result<(), AllocError>
    requires free { length free.now ≡ g.now.nodes }
    requires node { u < g.now.nodes }
    requires starts { All (λ v. v < length free.now) starts.old.items }
    ensures starts { OnOk result (All (λ v. v < length free.now) starts.new.items) }
{
    let _count = g.nodes();
    for hop in g.hops(u) {
        if free[hop.node as usize] {
            starts.push(hop.node)?;
        }
    }
    Ok(())
}
