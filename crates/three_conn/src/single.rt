// Looking for one node that parts a connected set.
ghost use Rattle.std.specs.Prelude.{◌≡◌, true, length, IfOk, IfSome, IfNone};
ghost use Rattle.tomo_base.specs.Walks.{IsConnectedIn};
ghost use Rattle.tomo_base.specs.Search.{mark_of};
ghost use Rattle.three_conn.specs.Parting.{IsParting};
ghost use Rattle.three_conn.specs.Held.{IsWholeButAt};

use crate::known::{Parting, Sought};
use gate_search::{Advance, GateSearch, advance_from, free_at_first, hold_way, take_free};
use std::alloc::Global;
use tomo_base::Graph;

// Looks for a node other than the root that parts a connected set, and answers it as both nodes of a parting. Nodes that no single node
// parts from the root are held, each with a way between two held nodes that a search finds, until all are held or a search ends at a single
// held node. A few looks at each link.
pub fn part_at_one(alloc: Global, g: &Graph, nodes: &[bool], root: u32) -> Sought
    requires marks { length nodes.now ≡ g.now.nodes }
    requires root { mark_of nodes.now root ≡ true }
    requires connected { IsConnectedIn g.now (mark_of nodes.now) }
    ensures whole { IfOk result (λ o. IfNone o (IsWholeButAt g.now (mark_of nodes.now) root)) }
    ensures parting { IfOk result (λ o. IfSome o (IsParting g.now (mark_of nodes.now))) }
    ensures one { IfOk result (λ o. IfSome o (λ p. p.first ≡ p.second)) }
{
    let mut x = 0;
    let mut starts = Vec::new(alloc);
    let mut search = GateSearch::new(alloc, g.nodes())?;
    let mut free = free_at_first(alloc, g, nodes, root)?;
    while x < g.nodes() {
        if free[x as usize] {
            let start = take_free(&free, &mut starts, x);
            match advance_from(g, nodes, &free, start, &mut search)? {
                Advance::Way(y) => hold_way(g, &search, y, &mut free, &mut starts)?,
                Advance::Cut(d) => {
                    return Ok(Some(Parting {
                        side: search.found.order,
                        first: d,
                        second: d,
                    }));
                }
            }
        } else {
            x += 1;
        }
    }
    Ok(None)
}
