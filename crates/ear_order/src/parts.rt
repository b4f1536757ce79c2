// Parts of a graph.
ghost use Rattle.std.specs.Prelude.{◌≡◌, ◌<◌, ℕ, true, length, IfOk};
ghost use Rattle.tomo_base.specs.Search.{mark_of};
ghost use Rattle.ear_order.specs.Turns.{IsFreePart};

use crate::marks::mark;
use std::alloc::Global;
use tomo_base::{Graph, NoMemory, sweep};

/// The free nodes to which walks over free nodes lead from a node: in the order of the search, and as marks.
#[derive(Drop)]
pub struct Part {
    pub order: Vec<u32>,
    pub inside: Vec<bool>,
}

/// The part of a node among the free nodes.
pub fn part_of(alloc: Global, g: &Graph, free: &[bool], x: u32) -> Result<Part, NoMemory>
    requires marks { length free.now ≡ g.now.nodes }
    requires free { mark_of free.now x ≡ true }
    ensures part { IfOk result (λ p. IsFreePart g.now (mark_of free.now) x p.order.items (mark_of p.inside.items)) }
    ensures marks { IfOk result (λ p. length p.inside.items ≡ g.now.nodes) }
{
    let found = sweep(alloc, g, free, &[x])?;
    let mut inside = vec![in alloc; false; g.nodes() as usize]?;
    mark(&mut inside, &found.order, true);
    Ok(Part {
        order: found.order,
        inside,
    })
}
