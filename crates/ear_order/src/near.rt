// Neighbours with a mark.
ghost use Rattle.std.specs.Prelude.{◌≡◌, ◌≢◌, ◌<◌, ℕ, true, length, All, IfSome, IfNone, IsTrue};
ghost use Rattle.tomo_base.specs.Network.{linked};
ghost use Rattle.tomo_base.specs.Search.{mark_of, entry_at};

use tomo_base::Graph;

/// A neighbour that has a mark and is not the other node.
pub fn near(g: &Graph, v: u32, marks: &[bool], other: u32) -> Option<u32>
    requires node { v < g.now.nodes }
    requires marks { length marks.now ≡ g.now.nodes }
    ensures link { IfSome result (λ w. linked g.now v w ≡ true) }
    ensures marked { IfSome result (λ w. mark_of marks.now w ≡ true) }
    ensures differs { IfSome result (λ w. w ≢ other) }
    ensures none { IfNone result ((w : ℕ) → linked g.now v w ≡ true → mark_of marks.now w ≡ true → w ≡ other) }
{
    let _nodes = g.nodes();
    for hop in g.hops(v) {
        if marks[hop.node as usize] && hop.node != other {
            return Some(hop.node);
        }
    }
    None
}

/// A node of a list, by its place, and a neighbour of it.
#[derive(Clone, Copy, Debug, PartialEq, Eq)]
pub struct Met {
    pub place: usize,
    pub node: u32,
}

/// The first node of a list that has such a neighbour.
pub fn first_near(g: &Graph, nodes: &[u32], marks: &[bool], other: u32) -> Option<Met>
    requires nodes { All (λ v. v < g.now.nodes) nodes.now }
    requires marks { length marks.now ≡ g.now.nodes }
    ensures place { IfSome result (λ m. m.place < length nodes.now) }
    ensures link { IfSome result (λ m. linked g.now (entry_at nodes.now m.place) m.node ≡ true) }
    ensures marked { IfSome result (λ m. mark_of marks.now m.node ≡ true) }
    ensures differs { IfSome result (λ m. m.node ≢ other) }
    ensures none { IfNone result ((k w : ℕ) → k < length nodes.now → linked g.now (entry_at nodes.now k) w ≡ true → mark_of marks.now w ≡ true → w ≡ other) }
{
    for (place, &v) in nodes.iter().enumerate() {
        if let Some(node) = near(g, v, marks, other) {
            return Some(Met { place, node });
        }
    }
    None
}
