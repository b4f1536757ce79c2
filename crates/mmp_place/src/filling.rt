// Filling sets with monitors until three nodes of each count.
ghost use Rattle.std.specs.Prelude.{◌≡◌, ◌<◌, ◌||◌, ℕ, min, All, OnOk, not};
ghost use Rattle.std.specs.List.{list_any};
ghost use Rattle.tomo_base.specs.Sets.{has, size, touches, complement};
ghost use Rattle.tomo_base.specs.SetLists.{IsSetBelow};
ghost use Rattle.mmp_place.specs.Rule.{counting, filled, filled_each};

use tomo_base::{Graph, Hop, NoMemory, NodeSet, NodeSets};

// Whether some hop leads out of the set.
fn leads_out(hops: &[Hop], set: &NodeSet) -> bool
    ensures { result ≡ list_any (λ h. not (has set.now h.node)) hops.now }
{
    hops.iter().any(|hop| !set.has(hop.node))
}

// Whether a node of the set counts: it is a monitor, or has a neighbour outside the set.
fn counts(g: &Graph, set: &NodeSet, m: &NodeSet, v: u32) -> bool
    requires { v < g.now.nodes }
    ensures { result ≡ (has m.now v || touches g.now (complement (has set.now)) v) }
{
    let _nodes = g.nodes();
    m.has(v) || leads_out(g.hops(v), set)
}

// How many nodes of the set count; three, where there are more.
fn how_many_count(g: &Graph, set: &NodeSet, m: &NodeSet) -> u32
    requires { All (λ v. v < g.now.nodes) set.now }
    ensures { result ≡ min 3 (size g.now (counting g.now (has set.now) (has m.now))) }
{
    let mut counted = 0;
    for &v in set.as_slice() {
        if counts(g, set, m, v) {
            counted += 1;
            if counted == 3 {
                return 3;
            }
        }
    }
    counted
}

/// Fills a set: adds its least nodes that do not count to the monitors, until three nodes of the set count or all are monitors.
/// Each node is asked until a neighbour outside the set is found, and none is once three count, so the time is at most that of the links
/// inside the set.
pub fn fill(g: &Graph, set: &NodeSet, m: &mut NodeSet) -> Result<(), NoMemory>
    requires { All (λ v. v < g.now.nodes) set.now }
    ensures { OnOk result ((v : ℕ) → has m.new v ≡ filled g.now (has set.now) (has m.old) v) }
{
    let mut counted = how_many_count(g, set, m);
    if counted == 3 {
        return Ok(());
    }
    for &v in set.as_slice() {
        if counted < 3 && !counts(g, set, m, v) {
            m.insert(v)?;
            counted += 1;
        }
    }
    Ok(())
}

/// Fills the sets of a list, one after the other.
pub fn fill_each(g: &Graph, sets: &NodeSets, m: &mut NodeSet) -> Result<(), NoMemory>
    requires { All (IsSetBelow g.now.nodes) sets.now }
    ensures { OnOk result ((v : ℕ) → has m.new v ≡ filled_each g.now sets.now (has m.old) v) }
{
    for i in 0..sets.len() {
        fill(g, sets.at(i), m)?;
    }
    Ok(())
}
