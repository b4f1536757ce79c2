// Whole plans of a topology.
ghost use Rattle.std.specs.Prelude.{◌<◌, ◌^◌, All, IfOk};
ghost use Rattle.tomo_base.specs.Sets.{has, complement, Apart};
ghost use Rattle.tomo_base.specs.Identify.{Identifies};
ghost use Rattle.plan_form.specs.PlanRows.{row_count};
ghost use Rattle.planner.specs.Planned.{IsPlanned, IsPlanFor, IsPlannedWith, IsMadeWith, HasFewRows};

use crate::measures::measure_all;
use drop_place::{nodes_outside, place_with};
use judge::{Verdict, judge};
use mmp_place::mmp;
use plan_form::Plan;
use pocket_bound::{pockets, pockets_with};
use std::alloc::Global;
use tomo_base::{NoMemory, NodeSet, Pockets};
use topology::{Choice, Topology};

/// What a topology and a choice come to.
#[derive(Drop)]
pub enum Made {
    /// The plan under the choice.
    Plan(Plan),
    /// There is none, since the nodes that are not barred do not identify every link: their bad set.
    Impossible(NodeSet),
}

/// The plan of a topology: the lowest set of monitors, which the placement rule places, its home pockets, and as many paths as links, with a
/// recipe for each link. After the placement and the spanning trees with their paths of Ma, He, Leung, Swami and Towsley (2013). It costs what
/// `mmp`, `pockets`, `trees` and `stpc` do, one after the other: at most a few searches for each pair of nodes, each linear in nodes and links,
/// and the nodes of all paths.
pub fn make_plan(alloc: Global, t: &Topology) -> Result<Plan, NoMemory>
    ensures planned { IfOk result (IsPlanned t.now.names t.now.graph) }
    ensures rows { IfOk result (λ p. row_count p < 2 ^ 32) }
{
    let monitors = mmp(alloc, t.graph())?;
    let pockets = pockets(alloc, t.graph(), &monitors)?;
    let made = measure_all(alloc, t, &monitors)?;
    Plan::build(alloc, t, &monitors, &pockets, &made.pool, &made.recipes)
}

/// A plan for given monitors that identify every link: as many paths as links, with a recipe for each link, and no pockets. After the spanning
/// trees with their paths of Ma, He, Leung, Swami and Towsley (2013). It costs what `trees` and `stpc` do, one after the other.
pub fn plan_for(alloc: Global, t: &Topology, m: &NodeSet) -> Result<Plan, NoMemory>
    requires nodes { All (λ v. v < t.now.graph.nodes) m.now }
    requires identifies { Identifies t.now.graph (has m.now) }
    ensures planned { IfOk result (IsPlanFor t.now.names t.now.graph m.now) }
    ensures rows { IfOk result (λ p. row_count p < 2 ^ 32) }
{
    // The nodes that a set lends ascend.
    let _ascending = m.as_slice();
    let made = measure_all(alloc, t, m)?;
    let pockets = Pockets::new(alloc);
    Plan::build(alloc, t, m, &pockets, &made.pool, &made.recipes)
}

/// The plan of a topology under a choice: the lowest set of monitors that holds all forced nodes and no barred one, the home pockets of those
/// that are not forced, and as many paths as links, with a recipe for each link. `Impossible` exactly where the nodes that are not barred
/// do not identify every link, so that no set does that holds no barred node, with their bad set, ascending. It costs what `judge`,
/// `place_with`, `pockets_with`, `trees` and `stpc` do, one after the other.
pub fn make_plan_with(alloc: Global, t: &Topology, choice: &Choice) -> Result<Made, NoMemory>
    requires must_nodes { All (λ v. v < t.now.graph.nodes) choice.now.must }
    requires not_nodes { All (λ v. v < t.now.graph.nodes) choice.now.not }
    requires apart { Apart (has choice.now.must) (has choice.now.not) }
    ensures made { IfOk result (IsMadeWith t.now.names t.now.graph choice.now) }
    ensures rows { IfOk result HasFewRows }
{
    let unbarred = nodes_outside(alloc, t.graph(), &choice.not)?;
    match judge(alloc, t.graph(), &unbarred)? {
        Verdict::Bad(nodes) => Ok(Made::Impossible(nodes)),
        Verdict::Yes => Ok(Made::Plan(chosen_plan(alloc, t, choice)?)),
    }
}

// The plan under a choice, where the nodes that are not barred identify every link.
fn chosen_plan(alloc: Global, t: &Topology, choice: &Choice) -> Result<Plan, NoMemory>
    requires must_nodes { All (λ v. v < t.now.graph.nodes) choice.now.must }
    requires not_nodes { All (λ v. v < t.now.graph.nodes) choice.now.not }
    requires apart { Apart (has choice.now.must) (has choice.now.not) }
    requires possible { Identifies t.now.graph (complement (has choice.now.not)) }
    ensures planned { IfOk result (IsPlannedWith t.now.names t.now.graph choice.now) }
    ensures rows { IfOk result (λ p. row_count p < 2 ^ 32) }
{
    // The nodes that a set lends ascend.
    let (_must, _not) = (choice.must.as_slice(), choice.not.as_slice());
    let monitors = place_with(alloc, t.graph(), &choice.must, &choice.not)?;
    let pockets = pockets_with(alloc, t.graph(), &monitors, &choice.must)?;
    let made = measure_all(alloc, t, &monitors)?;
    Plan::build_with(
        alloc,
        t,
        choice,
        &monitors,
        &pockets,
        &made.pool,
        &made.recipes,
    )
}
