// Where two ways up in the tree of a search meet.
ghost use Rattle.gate_search.specs.Trees.{IsTree, IsRanked};
ghost use Rattle.three_conn.specs.WaysUp.{IsWayUp};

use tomo_base::Swept;

// The node where the ways up from y and from z meet: the one that stands at the later place goes up, until both are the same.
pub fn meet(found: &Swept, y: u32, z: u32) -> u32
    requires tree { IsTree found.now }
    requires first { IsRanked found.now y }
    requires second { IsRanked found.now z }
    ensures ranked { IsRanked found.now result }
    ensures ways { IsWayUp found.now y z result result }
{
    let mut u = y;
    let mut v = z;
    while u != v {
        if found.rank[u as usize] < found.rank[v as usize] {
            v = found.parent[v as usize];
        } else {
            u = found.parent[u as usize];
        }
    }
    u
}
