// The test of a set of monitors.
ghost use Rattle.std.specs.Prelude.{ℕ, ◌≡◌, ◌<◌, ◌≤◌, true, false, length, All, IfOk, IfSome, IfNone};
ghost use Rattle.tomo_base.specs.Limits.{graph_node_limit};
ghost use Rattle.tomo_base.specs.Sets.{has};
ghost use Rattle.tomo_base.specs.Search.{mark_of};
ghost use Rattle.tomo_base.specs.Walks.{IsConnected};
ghost use Rattle.judge.specs.Verdict.{IsVerdict, TellsExtended};

use std::alloc::Global;
use three_conn::seen;
use tomo_base::{Graph, NoMemory, NodeSet};
use unit_flow::{Fanned, fan};

/// What a set of monitors comes to.
#[derive(Drop)]
pub enum Verdict {
    /// The monitors identify every link.
    Yes,
    /// They do not: the bad set.
    Bad(NodeSet),
}

/// Judges monitors of a connected graph: `Yes` exactly where they identify every link, and `Bad` exactly where they do not, with the bad
/// set, ascending. They identify exactly where each node is seen: without any two others, a walk leads from it to a monitor. The first that
/// is not seen stands in the bad set, which is the least set around it that as few nodes as can be cut off from the monitors. Time is that
/// of marking the nodes that are seen, about half that of the test of three-connectivity, and where one is not seen that of at most three
/// searches more, each linear in nodes and links. After Ma, He, Leung, Swami and Towsley (2013).
pub fn judge(alloc: Global, g: &Graph, m: &NodeSet) -> Result<Verdict, NoMemory>
    requires connected { IsConnected g.now }
    requires three { 3 ≤ g.now.nodes }
    requires nodes { All (λ v. v < g.now.nodes) m.now }
    ensures verdict { IfOk result (IsVerdict g.now (has m.now)) }
    ensures extended { IfOk result (TellsExtended g.now m.now) }
{
    let _count = g.nodes();
    let marks = seen(alloc, g, m)?;
    let Some(v) = first_unmarked(&marks) else {
        return Ok(Verdict::Yes);
    };
    let Fanned::Few(cut) = fan(alloc, g, v, m)? else {
        unreachable!()
    };
    // The nodes that a set lends ascend.
    let _ascending = cut.as_slice();
    Ok(Verdict::Bad(cut))
}

// The first node without a mark.
fn first_unmarked(marks: &[bool]) -> Option<u32>
    requires { length marks.now ≤ graph_node_limit }
    ensures below { IfSome result (λ v. v < length marks.now) }
    ensures unmarked { IfSome result (λ v. mark_of marks.now v ≡ false) }
    ensures first { IfSome result (λ v. (k : ℕ) → k < v → mark_of marks.now k ≡ true) }
    ensures none { IfNone result ((k : ℕ) → k < length marks.now → mark_of marks.now k ≡ true) }
{
    for v in 0..marks.len() {
        if !marks[v] {
            return Some(v as u32);
        }
    }
    None
}
