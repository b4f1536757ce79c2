// What is known of a plan as promised: it is found good, and its sums are solved.
ghost use Rattle.std.specs.Prelude.{◌≡◌, List, ℕ, length, IfOk};
ghost use Rattle.tomo_base.specs.Identify.{IsAssignment};
ghost use Rattle.link_solver.specs.Verdict.{HasSums, IsOnly};
ghost use Rattle.planner.specs.Planned.{IsPlanned};

use cert_check::{Report, check};
use link_solver::{Answer, Delays, solve_into};
use plan_form::Plan;
use std::alloc::Global;
use tomo_base::NoMemory;
use topology::Topology;

/// What a check reports of a good plan.
#[derive(Clone, Copy)]
pub(crate) struct Shown {
    pub(crate) monitors: u32,
    pub(crate) bound: u32,
}

/// What the check reports of a plan as promised: its pockets show that so many monitors are needed.
pub(crate) fn checked(alloc: Global, t: &Topology, p: &Plan) -> Result<Shown, NoMemory>
    requires { IsPlanned t.now.names t.now.graph p.now }
    ensures monitors { IfOk result (λ found. found.monitors ≡ length p.now.monitors) }
    ensures bound { IfOk result (λ found. found.bound ≡ length p.now.monitors) }
{
    match check(alloc, t, p)? {
        Report::Good { monitors, bound } => Ok(Shown { monitors, bound }),
        Report::Bad(_) => unreachable!(),
    }
}

/// The one assignment that has these sums along the paths of a plan as promised, where one has them.
pub(crate) fn solved(
    alloc: Global,
    t: &Topology,
    p: &Plan,
    sums: &[u64],
) -> Result<Delays, NoMemory>
    requires planned { IsPlanned t.now.names t.now.graph p.now }
    requires one_each { length sums.now ≡ length p.now.paths }
    requires solvable { (d : List ℕ) × IsAssignment t.now.graph d × HasSums t.now.graph p.now.paths sums.now d }
    ensures { IfOk result (IsOnly t.now.graph p.now.paths sums.now) }
{
    let mut delays = Delays::for_plan(alloc, p)?;
    match solve_into(t.graph(), p, sums, &mut delays) {
        Answer::Solved => Ok(delays),
        _ => unreachable!(),
    }
}
