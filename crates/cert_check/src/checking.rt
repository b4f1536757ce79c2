// The check of a plan.
ghost use Rattle.std.specs.Prelude.{IfOk, IfSome, IfNone};
ghost use Rattle.plan_form.specs.Good.{IsGoodPlan};
ghost use Rattle.cert_check.specs.Faults.{IsFault, IsPlanOf, HasGoodNodes};
ghost use Rattle.cert_check.specs.Reports.{IsReport};

use crate::choice::{first_not_chosen, numbers_below};
use crate::first_parts::{first_not_ascending, first_other_link, first_other_name};
use crate::paths::first_bad_path;
use crate::pockets::{first_bad_pocket, node_set};
use crate::recipes::first_bad_recipe;
use crate::report::{Fault, Report};
use plan_form::Plan;
use std::alloc::Global;
use tomo_base::NoMemory;
use topology::Topology;

// The first fault of a plan's names and links.
fn network_fault(t: &Topology, p: &Plan) -> Option<Fault>
    ensures some { IfSome result (IsFault t.now p.now) }
    ensures none { IfNone result (IsPlanOf t.now p.now) }
{
    if let Some(i) = first_other_name(t, p.names()) {
        return Some(Fault::Names(i));
    }
    if let Some(i) = first_other_link(p.links(), t.graph().links()) {
        return Some(Fault::Links(i));
    }
    None
}

// The first fault of the forced nodes, the barred nodes and the monitors.
fn node_fault(alloc: Global, t: &Topology, p: &Plan) -> Result<Option<Fault>, NoMemory>
    requires { IsPlanOf t.now p.now }
    ensures some { IfOk result (λ o. IfSome o (IsFault t.now p.now)) }
    ensures none { IfOk result (λ o. IfNone o (HasGoodNodes t.now p.now)) }
{
    let n = t.graph().nodes();
    let monitors = numbers_below(alloc, n, p.monitors())?;
    if let Some(i) = first_not_chosen(n, &monitors, true, p.forced()) {
        return Ok(Some(Fault::Must(i)));
    }
    // Forced nodes are monitors, so what is no monitor is not forced.
    if let Some(i) = first_not_chosen(n, &monitors, false, p.barred()) {
        return Ok(Some(Fault::Not(i)));
    }
    if let Some(i) = first_not_ascending(n, p.monitors()) {
        return Ok(Some(Fault::Monitor(i)));
    }
    Ok(None)
}

// The first fault of the pockets, the paths and the recipes.
fn proof_fault(alloc: Global, t: &Topology, p: &Plan) -> Result<Option<Fault>, NoMemory>
    requires { HasGoodNodes t.now p.now }
    ensures some { IfOk result (λ o. IfSome o (IsFault t.now p.now)) }
    ensures none { IfOk result (λ o. IfNone o (IsGoodPlan t.now.names t.now.graph p.now)) }
{
    let g = t.graph();
    if let Some(i) = first_bad_pocket(alloc, g, p)? {
        return Ok(Some(Fault::Pocket(i)));
    }
    let monitors = node_set(alloc, p.monitors())?;
    if let Some(i) = first_bad_path(alloc, g, &monitors, p.paths())? {
        return Ok(Some(Fault::Path(i)));
    }
    if let Some(i) = first_bad_recipe(alloc, g, p.paths(), p.recipes())? {
        return Ok(Some(Fault::Recipe(i)));
    }
    Ok(None)
}

// The first fault of a plan.
fn first_fault(alloc: Global, t: &Topology, p: &Plan) -> Result<Option<Fault>, NoMemory>
    ensures some { IfOk result (λ o. IfSome o (IsFault t.now p.now)) }
    ensures none { IfOk result (λ o. IfNone o (IsGoodPlan t.now.names t.now.graph p.now)) }
{
    if let Some(fault) = network_fault(t, p) {
        return Ok(Some(fault));
    }
    if let Some(fault) = node_fault(alloc, t, p)? {
        return Ok(Some(fault));
    }
    proof_fault(alloc, t, p)
}

// The report of a good plan.
fn good_report(t: &Topology, p: &Plan) -> Report
    requires { IsGoodPlan t.now.names t.now.graph p.now }
    ensures { IsReport t.now p.now result }
{
    let _graph = t.graph();
    let mut bound = p.forced().len() as u32;
    for i in 0..p.pocket_count() {
        bound += p.pocket_need(i);
    }
    Report::Good {
        monitors: p.monitors().len() as u32,
        bound,
    }
}

/// Whether the plan is right for the topology: its first fault, or, where it has none, how many monitors it has, and how many its forced
/// nodes and pockets show that every set that identifies and holds the forced nodes has, at least. Good paths determine the delay of each link: the recipes show it. The parts are
/// looked at in the order of the faults. Time is linear in the plan's paths and in those that its recipes name, but for the look-up of
/// links, and in each pocket in the nodes and links of the topology. The error comes for want of memory alone.
pub fn check(alloc: Global, t: &Topology, p: &Plan) -> Result<Report, NoMemory>
    ensures { IfOk result (IsReport t.now p.now) }
{
    Ok(match first_fault(alloc, t, p)? {
        Some(fault) => Report::Bad(fault),
        None => good_report(t, p),
    })
}
