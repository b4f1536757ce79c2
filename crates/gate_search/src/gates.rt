// Links that lead from free nodes to other nodes of a set.
ghost use Rattle.std.specs.Prelude.{◌≡◌, ◌<◌, length, IfSome, IfNone};
ghost use Rattle.tomo_base.specs.Search.{mark_of};
ghost use Rattle.gate_search.specs.Gates.{IsGate, HasNoGate};

use tomo_base::Graph;

/// A free node, and a node of the set that is not free, which a link joins to it.
#[derive(Clone, Copy)]
pub struct Gate {
    pub inner: u32,
    pub outer: u32,
}

// A node of the set that is not free, other than c and d, which a link joins to the node.
pub fn outer(g: &Graph, nodes: &[bool], free: &[bool], inner: u32, c: u32, d: u32) -> Option<u32>
    requires marks { length nodes.now ≡ g.now.nodes }
    requires free { length free.now ≡ g.now.nodes }
    requires node { inner < g.now.nodes }
    ensures found { IfSome result (IsGate g.now (mark_of nodes.now) (mark_of free.now) inner c d) }
    ensures none { IfNone result (HasNoGate g.now (mark_of nodes.now) (mark_of free.now) inner c d) }
{
    let _count = g.nodes();
    for hop in g.hops(inner) {
        let v = hop.node;
        if nodes[v as usize] && !free[v as usize] && v != c && v != d {
            return Some(v);
        }
    }
    None
}
