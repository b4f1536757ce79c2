// Labels of nodes: all nodes of a home pocket have the same one.
ghost use Rattle.std.specs.Prelude.{◌≡◌, ◌<◌, ◌≤◌, ◌↔◌, ℕ, All, IfOk, OnOk, OnErr, IsTrue, length, slice_index};
ghost use Rattle.std.specs.List.Sorted.{IsStrictlyIncreasing};
ghost use Rattle.tomo_base.specs.BadParts.{NoBadPart};
ghost use Rattle.tomo_base.specs.Limits.{graph_node_limit};
ghost use Rattle.tomo_base.specs.Network.{IsGraph};
ghost use Rattle.tomo_base.specs.Search.{mark_of};
ghost use Rattle.tomo_base.specs.Sets.{has, minus};
ghost use Rattle.ident_laws.specs.Labels.{IsMet, AreJoined};
ghost use Rattle.pocket_bound.specs.HomeLabels.{AreHomeLabels, AreKept};

use crate::homes::home;
use std::alloc::{AllocError, Global};
use tomo_base::{Graph, NoMemory, NodeSet};

/// A label for each node: 0 where no home of a node of the set outside `must` holds it, else one above 0 that the nodes of its home pocket
/// share. Beside the homes, time linear in nodes for each node of the set.
pub fn labels(alloc: Global, g: &Graph, m: &NodeSet, must: &NodeSet) -> Result<Vec<u32>, NoMemory>
    requires nodes { All (λ v. v < g.now.nodes) m.now }
    requires good { IsGraph g.now → NoBadPart g.now (has m.now) }
    requires kept { IsGraph g.now → AreKept g.now (has m.now) (has must.now) }
    ensures labels { IfOk result (λ labels. AreHomeLabels g.now (has m.now) (minus (has m.now) (has must.now)) (length m.now) labels.items) }
    ensures ascending { OnOk result (IsStrictlyIncreasing m.now) }
    ensures graph { IsGraph g.now }
{
    let count = g.nodes();
    let mut labels: Vec<u32> = vec![in alloc; 0; count as usize]?;
    for (i, &x) in m.as_slice().iter().enumerate() {
        if must.has(x) {
            continue;
        }
        let home = home(alloc, g, m, x)?;
        join(alloc, &mut labels, &home, i as u32 + 1)?;
    }
    Ok(labels)
}

// Gives a new label to the nodes of a home, and to all nodes with the label of one of them.
fn join(alloc: Global, labels: &mut [u32], home: &NodeSet, label: u32) -> Result<(), AllocError>
    requires few { length labels.old ≤ graph_node_limit }
    requires nodes { All (λ v. v < length labels.old) home.now }
    requires new { All (λ l. l < label) labels.old }
    ensures joined { OnOk result (AreJoined (length labels.old) (slice_index labels.old) (has home.now) label (slice_index labels.new)) }
    ensures err { OnErr result (labels.new ≡ labels.old) }
{
    let met = met_labels(alloc, labels, home, label)?;
    for (v, old) in labels.iter_mut().enumerate() {
        if met[*old as usize] || home.has(v as u32) {
            *old = label;
        }
    }
    Ok(())
}

// For each label below the count, whether it is above 0 and some node of the home has it.
fn met_labels(
    alloc: Global,
    labels: &[u32],
    home: &NodeSet,
    count: u32,
) -> Result<Vec<bool>, AllocError>
    requires nodes { All (λ v. v < length labels.now) home.now }
    requires below { All (λ l. l < count) labels.now }
    ensures size { IfOk result (λ met. length met.items ≡ count) }
    ensures met { IfOk result (λ met. (l : ℕ) → IsTrue (mark_of met.items l) ↔ IsMet (length labels.now) (slice_index labels.now) (has home.now) l) }
{
    let mut met: Vec<bool> = vec![in alloc; false; count as usize]?;
    for &v in home.as_slice() {
        let label = labels[v as usize];
        if label > 0 {
            met[label as usize] = true;
        }
    }
    Ok(met)
}
