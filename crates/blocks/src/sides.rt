// Nodes that cut a set of nodes, and the sides that they leave.
ghost use Rattle.std.specs.Prelude.{ℕ, ◌≡◌, ◌≤◌, ◌<◌, length, All, IsTrue, IfOk, IfSome, IfNone};
ghost use Rattle.tomo_base.specs.Sets.{has, without};
ghost use Rattle.tomo_base.specs.Search.{mark_of};
ghost use Rattle.tomo_base.specs.SetLists.{IsSetBelow};
ghost use Rattle.tomo_base.specs.Walks.{IsConnectedIn};
ghost use Rattle.blocks.specs.Sides.{AreSides};

use std::alloc::Global;
use tomo_base::{Graph, NoMemory, marks_of, sweep};

// The two sides of a set that a node cuts, each with this node.
#[derive(Drop)]
pub struct Sides {
    pub near: Vec<u32>,
    pub far: Vec<u32>,
}

// One mark for each of `n` nodes: that it is in the set, and is another node than `out`.
fn marks_without(alloc: Global, n: u32, nodes: &[u32], out: u32) -> Result<Vec<bool>, NoMemory>
    requires nodes { All (λ v. v < n) nodes.now }
    requires out { out < n }
    ensures length { IfOk result (λ marks. length marks.items ≡ n) }
    ensures marks { IfOk result (λ marks. (v : ℕ) → mark_of marks.items v ≡ without (has nodes.now) out v) }
{
    let mut marks = marks_of(alloc, n, nodes)?;
    marks[out as usize] = false;
    Ok(marks)
}

// How many nodes a side has that has the cutting node alone.
const ALONE: usize = 1;

// The two sides of a set that its node `cut` cuts, or none where the rest is connected. One search.
pub fn sides_at(
    alloc: Global,
    g: &Graph,
    nodes: &[u32],
    cut: u32,
) -> Result<Option<Sides>, NoMemory>
    requires set { IsSetBelow g.now.nodes nodes.now }
    requires two { 2 ≤ length nodes.now }
    requires node { IsTrue (has nodes.now cut) }
    ensures none { IfOk result (λ o. IfNone o (IsConnectedIn g.now (without (has nodes.now) cut))) }
    ensures sides { IfOk result (λ o. IfSome o (λ s. AreSides g.now nodes.now cut s.near.items s.far.items)) }
{
    let n = g.nodes();
    let free = marks_without(alloc, n, nodes, cut)?;
    let start = if nodes[0] == cut { nodes[1] } else { nodes[0] };
    let found = sweep(alloc, g, &free, &[start])?;
    let mut near = Vec::new(alloc);
    let mut far = Vec::new(alloc);
    for &v in nodes {
        if v == cut {
            near.push(v)?;
            far.push(v)?;
        } else if found.rank[v as usize] < n {
            near.push(v)?;
        } else {
            far.push(v)?;
        }
    }
    if far.len() == ALONE {
        return Ok(None);
    }
    Ok(Some(Sides { near, far }))
}
