// The pockets of a plan.
ghost use Rattle.std.specs.Prelude.{◌≡◌, ◌<◌, ◌||◌, ◌↔◌, ℕ, length, All, IfOk, IfSome, IfNone, IsTrue, false};
ghost use Rattle.std.specs.List.Sorted.{IsStrictlyIncreasing};
ghost use Rattle.tomo_base.specs.Limits.{graph_node_limit};
ghost use Rattle.tomo_base.specs.Sets.{has};
ghost use Rattle.plan_form.specs.Good.{IsGoodPocket};
ghost use Rattle.cert_check.specs.Faults.{IsFirstBad, AllPlaces, IsGoodPocketAt};

use crate::first_parts::first_not_ascending;
use plan_form::Plan;
use std::alloc::Global;
use tomo_base::{Graph, NoMemory, NodeSet, need};

// The set of these nodes.
pub fn node_set(alloc: Global, nodes: &[u32]) -> Result<NodeSet, NoMemory>
    requires below { All (λ v. v < graph_node_limit) nodes.now }
    requires ascending { IsStrictlyIncreasing nodes.now }
    ensures { IfOk result (λ s. s ≡ nodes.now) }
{
    let mut set = NodeSet::new(alloc);
    for &v in nodes {
        set.insert(v)?;
    }
    Ok(set)
}

// Whether the nodes are a good pocket of this need.
fn is_good_pocket(
    alloc: Global,
    g: &Graph,
    nodes: &[u32],
    need_given: u32,
) -> Result<bool, NoMemory>
    requires { 0 < length nodes.now }
    ensures { IfOk result (λ good. IsTrue good ↔ IsGoodPocket g.now (record { need = need_given; nodes = nodes.now })) }
{
    if first_not_ascending(g.nodes(), nodes).is_some() {
        return Ok(false);
    }
    let pocket = node_set(alloc, nodes)?;
    let need = need(g, &pocket);
    // A set of nodes needs none just where it has more than two outside neighbours.
    Ok(need > 0 && need == need_given)
}

// Puts the nodes into the set, and answers whether all are new.
fn all_new(nodes: &[u32], seen: &mut NodeSet) -> Result<bool, NoMemory>
    requires below { All (λ v. v < graph_node_limit) nodes.now }
    requires ascending { IsStrictlyIncreasing nodes.now }
    ensures new { IfOk result (λ new. IsTrue new ↔ All (λ v. has seen.old v ≡ false) nodes.now) }
    ensures nodes { IfOk result (λ new. IsTrue new → (w : ℕ) → has seen.new w ≡ (has seen.old w || has nodes.now w)) }
{
    for &v in nodes {
        if !seen.insert(v)? {
            return Ok(false);
        }
    }
    Ok(true)
}

// The first pocket that is not good, holds a forced node, or shares a node with an earlier one.
pub fn first_bad_pocket(alloc: Global, g: &Graph, p: &Plan) -> Result<Option<u32>, NoMemory>
    requires below { All (λ v. v < g.now.nodes) p.now.forced }
    requires ascending { IsStrictlyIncreasing p.now.forced }
    ensures some { IfOk result (λ o. IfSome o (IsFirstBad (length p.now.pockets) (IsGoodPocketAt g.now p.now.forced p.now.pockets))) }
    ensures none { IfOk result (λ o. IfNone o (AllPlaces (length p.now.pockets) (IsGoodPocketAt g.now p.now.forced p.now.pockets))) }
{
    let _nodes = g.nodes();
    // The nodes that no further pocket may hold.
    let mut seen = node_set(alloc, p.forced())?;
    for i in 0..p.pocket_count() {
        let nodes = p.pocket(i);
        if !is_good_pocket(alloc, g, nodes, p.pocket_need(i))? || !all_new(nodes, &mut seen)? {
            return Ok(Some(i));
        }
    }
    Ok(None)
}
