// The home pockets, as the classes of nodes with one label.
ghost use Rattle.std.specs.Prelude.{◌≡◌, ◌<◌, ◌≤◌, ◌&&◌, ◌==◌, ◌↔◌, ℕ, All, IfOk, OnOk, IsTrue, length, nat_lt, slice_index};
ghost use Rattle.std.specs.List.Sorted.{IsStrictlyIncreasing};
ghost use Rattle.tomo_base.specs.BadParts.{NoBadPart};
ghost use Rattle.tomo_base.specs.Identify.{Identifies};
ghost use Rattle.tomo_base.specs.Limits.{graph_node_limit};
ghost use Rattle.tomo_base.specs.Lowest.{IsLowest};
ghost use Rattle.tomo_base.specs.Network.{IsGraph};
ghost use Rattle.tomo_base.specs.Pockets.{need_of, Shows, AreHomePockets};
ghost use Rattle.tomo_base.specs.Sets.{has, size, nothing, minus, without, IsInside, Avoids};
ghost use Rattle.tomo_base.specs.Walks.{IsConnected};
ghost use Rattle.pocket_bound.specs.HomeLabels.{AreKept};
ghost use Rattle.pocket_bound.specs.Classes.{sets_of, IsFirst, AreClasses};

use crate::labelling::labels;
use std::alloc::Global;
use tomo_base::{Graph, NoMemory, NodeSet, Pocket, Pockets, need};

/// The home pockets of the lowest set, by ascending least node, each with its need. They share no node, and their needs add up to the
/// number of nodes of the set, so that no set that identifies every link has fewer. At most three searches for each node of the set,
/// each linear in nodes and links.
pub fn pockets(alloc: Global, g: &Graph, m: &NodeSet) -> Result<Pockets, NoMemory>
    requires connected { IsConnected g.now }
    requires three { 3 ≤ g.now.nodes }
    requires nodes { All (λ v. v < g.now.nodes) m.now }
    requires lowest { IsLowest g.now (has m.now) }
    ensures homes { IfOk result (λ p. AreHomePockets g.now (has m.now) nothing (sets_of p)) }
    ensures needs { IfOk result (λ p. All (λ k. k.need ≡ need_of g.now (has k.nodes)) p) }
    ensures shows { IfOk result (λ p. Shows g.now (sets_of p) (length m.now)) }
    ensures filled { IfOk result (λ p. All (λ k. 0 < length k.nodes) p) }
{
    home_pockets(alloc, g, m, &NodeSet::new(alloc))
}

/// The home pockets of the nodes of a set that are not in `must`, by ascending least node, each with its need; none of these nodes can be
/// left out alone. The pockets share no node and hold none of `must`, and their needs add up to the number of these nodes, so that no set
/// that holds `must` and identifies every link has fewer nodes than the set. At most three searches for each of the nodes, each linear in
/// nodes and links.
pub fn pockets_with(
    alloc: Global,
    g: &Graph,
    m: &NodeSet,
    must: &NodeSet,
) -> Result<Pockets, NoMemory>
    requires connected { IsConnected g.now }
    requires three { 3 ≤ g.now.nodes }
    requires nodes { All (λ v. v < g.now.nodes) m.now }
    requires identifies { Identifies g.now (has m.now) }
    requires holds { IsInside g.now (has must.now) (has m.now) }
    requires kept { (x : ℕ) → x < g.now.nodes → IsTrue (minus (has m.now) (has must.now) x) → Identifies g.now (without (has m.now) x) → ⊥ }
    ensures homes { IfOk result (λ p. AreHomePockets g.now (has m.now) (has must.now) (sets_of p)) }
    ensures needs { IfOk result (λ p. All (λ k. k.need ≡ need_of g.now (has k.nodes)) p) }
    ensures free { IfOk result (λ p. All (λ q. Avoids g.now (has q) (has must.now)) (sets_of p)) }
    ensures shows { IfOk result (λ p. Shows g.now (sets_of p) (size g.now (minus (has m.now) (has must.now)))) }
    ensures filled { IfOk result (λ p. All (λ k. 0 < length k.nodes) p) }
{
    home_pockets(alloc, g, m, must)
}

// The home pockets of the nodes of a set that are not in `must`, none of which can be left out alone.
fn home_pockets(alloc: Global, g: &Graph, m: &NodeSet, must: &NodeSet) -> Result<Pockets, NoMemory>
    requires nodes { All (λ v. v < g.now.nodes) m.now }
    requires good { IsGraph g.now → NoBadPart g.now (has m.now) }
    requires kept { IsGraph g.now → AreKept g.now (has m.now) (has must.now) }
    ensures homes { IfOk result (λ p. AreHomePockets g.now (has m.now) (has must.now) (sets_of p)) }
    ensures needs { IfOk result (λ p. All (λ k. k.need ≡ need_of g.now (has k.nodes)) p) }
    ensures filled { IfOk result (λ p. All (λ k. 0 < length k.nodes) p) }
    ensures ascending { OnOk result (IsStrictlyIncreasing m.now) }
    ensures graph { IsGraph g.now }
{
    let labels = labels(alloc, g, m, must)?;
    classes(alloc, g, &labels)
}

// The classes of nodes with one label above 0, by ascending least node, each with its need.
fn classes(alloc: Global, g: &Graph, labels: &[u32]) -> Result<Pockets, NoMemory>
    requires { length labels.now ≡ g.now.nodes }
    ensures classes { IfOk result (λ p. AreClasses labels.now (length labels.now) (sets_of p)) }
    ensures needs { IfOk result (λ p. All (λ k. k.need ≡ need_of g.now (has k.nodes)) p) }
{
    let mut pockets = Pockets::new(alloc);
    for v in 0..g.nodes() {
        if is_first(labels, v) {
            let nodes = class_of(alloc, labels, v)?;
            let need = need(g, &nodes);
            pockets.push(Pocket { nodes, need }).map_err(|_| NoMemory)?;
        }
    }
    Ok(pockets)
}

// Whether the node has a label above 0, and no lower node has the same.
fn is_first(labels: &[u32], v: u32) -> bool
    requires { v < length labels.now }
    ensures { IsTrue result ↔ IsFirst labels.now v }
{
    let label = labels[v as usize];
    label > 0 && !labels[..v as usize].contains(&label)
}

// The nodes with the label of a node.
fn class_of(alloc: Global, labels: &[u32], v: u32) -> Result<NodeSet, NoMemory>
    requires few { length labels.now ≤ graph_node_limit }
    requires node { v < length labels.now }
    ensures same { IfOk result (λ class. (u : ℕ) → has class u ≡ (nat_lt u (length labels.now) && (slice_index labels.now u == slice_index labels.now v))) }
    ensures ascending { IfOk result (λ class. IsStrictlyIncreasing class) }
{
    let mut class = NodeSet::new(alloc);
    for (u, &label) in labels.iter().enumerate() {
        if label == labels[v as usize] {
            class.insert(u as u32)?;
        }
    }
    // The nodes that a set lends ascend.
    let _ascending = class.as_slice();
    Ok(class)
}
