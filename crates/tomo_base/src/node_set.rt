// Sets of nodes, as ascending lists.
ghost use Rattle.std.specs.Prelude.{◌≡◌, ◌<◌, ◌||◌, ◌==◌, ℕ, [], All, IfOk, OnOk, OnErr, length, not};
ghost use Rattle.std.specs.List.{list_any};
ghost use Rattle.std.specs.List.Sorted.{IsStrictlyIncreasing};
ghost use Rattle.tomo_base.specs.Limits.{graph_node_limit};
ghost use Rattle.tomo_base.specs.Sets.{has, union as in_union, outside as is_outside};
ghost use Rattle.tomo_base.specs.NodeLists.{IsNodeSet};

use crate::graph::{Graph, Hop};
use crate::memory::NoMemory;
use std::alloc::Global;
use std::marker::Model;

/// A set of nodes below `GRAPH_NODE_LIMIT`. Contracts see its nodes as an ascending list.
#[derive(Drop)]
pub struct NodeSet {
    nodes: Vec<u32>,
}

impl Model for NodeSet {
    ghost use Rattle.std.specs.Prelude.{ℕ, List};
    ghost use Rattle.tomo_base.specs.NodeLists.{IsNodeSet};

    ghost Value = { List ℕ };

    ghost view = { λ s. s.nodes.items };

    ghost invariant = { λ s. IsNodeSet s.nodes.items };
}

impl NodeSet {
    /// The empty set. It takes no memory.
    pub fn new(alloc: Global) -> NodeSet
        ensures { result ≡ [] }
    {
        NodeSet {
            nodes: Vec::new(alloc),
        }
    }

    /// Puts a node into the set, and answers whether it is new.
    pub fn insert(&mut self, v: u32) -> Result<bool, NoMemory>
        requires { v < graph_node_limit }
        ensures nodes { OnOk result ((w : ℕ) → has self.new w ≡ ((v == w) || has self.old w)) }
        ensures new { IfOk result (λ new. new ≡ not (has self.old v)) }
        ensures ascending { OnOk result (IsStrictlyIncreasing self.new) }
        ensures err { OnErr result (self.new ≡ self.old) }
    {
        match self.nodes.binary_search(&v) {
            Ok(_) => Ok(false),
            Err(place) => {
                self.nodes.insert(place, v)?;
                Ok(true)
            }
        }
    }

    /// Whether a node is in the set.
    pub fn has(&self, v: u32) -> bool
        ensures { result ≡ has self.now v }
    {
        self.nodes.binary_search(&v).is_ok()
    }

    /// How many nodes the set has.
    pub fn len(&self) -> u32
        ensures len { result ≡ length self.now }
        ensures set { IsNodeSet self.now }
    {
        self.nodes.len() as u32
    }

    /// The nodes of the set, ascending.
    pub fn as_slice(&self) -> &[u32]
        ensures nodes { result.now ≡ self.now }
        ensures ascending { IsStrictlyIncreasing self.now }
        ensures below { All (λ v. v < graph_node_limit) self.now }
    {
        &self.nodes
    }

    /// An equal set.
    pub fn copy(&self, alloc: Global) -> Result<NodeSet, NoMemory>
        ensures { IfOk result (λ s. s ≡ self.now) }
    {
        Ok(NodeSet {
            nodes: self.nodes.to_vec(alloc)?,
        })
    }

    /// The nodes that are in one of the two sets.
    pub fn union(&self, alloc: Global, other: &NodeSet) -> Result<NodeSet, NoMemory>
        ensures { IfOk result (λ s. (w : ℕ) → has s w ≡ in_union (has self.now) (has other.now) w) }
    {
        let mut all = self.copy(alloc)?;
        for &v in other.as_slice() {
            all.insert(v)?;
        }
        Ok(all)
    }

    /// Whether the node is outside the set, and a link of the graph joins it to a node of the set. It takes no memory.
    pub fn borders(&self, g: &Graph, v: u32) -> bool
        requires { v < g.now.nodes }
        ensures { result ≡ is_outside g.now (has self.now) v }
    {
        let _nodes = g.nodes();
        !self.has(v) && leads_into(g.hops(v), self)
    }

    /// The nodes outside the set that a link joins to a node of the set.
    pub fn outside(&self, alloc: Global, g: &Graph) -> Result<NodeSet, NoMemory>
        requires { All (λ v. v < g.now.nodes) self.now }
        ensures { IfOk result (λ s. (w : ℕ) → has s w ≡ is_outside g.now (has self.now) w) }
    {
        let mut found = NodeSet::new(alloc);
        for v in 0..g.nodes() {
            if self.borders(g, v) {
                found.insert(v)?;
            }
        }
        Ok(found)
    }
}

// Whether some hop leads to a node of the set.
fn leads_into(hops: &[Hop], set: &NodeSet) -> bool
    ensures { result ≡ list_any (λ h. has set.now h.node) hops.now }
{
    hops.iter().any(|hop| set.has(hop.node))
}
