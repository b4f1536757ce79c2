// A whole drill.
ghost use Rattle.std.specs.Prelude.{◌≡◌, ◌<◌, length, sum, IfOk};
ghost use Rattle.tomo_base.specs.Identify.{IsAssignment};
ghost use Rattle.planner.specs.Planned.{IsPlanned};
ghost use Rattle.drill.specs.Generated.{CanDraw};
ghost use Rattle.drill.specs.Drill as spec;
ghost use Rattle.drill.specs.Drill.{IsDrill};

use crate::delays::{draw_delays, sums_along, total};
use crate::draws::Draws;
use crate::network::network;
use crate::report::{Found, Given, drill_rows};
use crate::solving::{checked, solved};
use plan_form::Plan;
use planner::make_plan;
use rows::Rows;
use std::alloc::Global;
use tomo_base::NoMemory;
use topology::Topology;

// What is found of a plan as promised: it is checked, measured with these delays, and solved.
fn measured(alloc: Global, t: &Topology, p: &Plan, delays: &[u64]) -> Result<Found, NoMemory>
    requires planned { IsPlanned t.now.names t.now.graph p.now }
    requires assignment { IsAssignment t.now.graph delays.now }
    ensures monitors { IfOk result (λ found. found.monitors ≡ length p.now.monitors) }
    ensures bound { IfOk result (λ found. found.bound ≡ length p.now.monitors) }
    ensures paths { IfOk result (λ found. found.paths ≡ length p.now.paths) }
    ensures along { IfOk result (λ found. found.along ≡ sum (spec.sums_along t.now.graph delays.now p.now.paths)) }
    ensures total { IfOk result (λ found. found.total ≡ sum delays.now) }
{
    let report = checked(alloc, t, p)?;
    let sums = sums_along(alloc, t.graph(), p.paths(), delays)?;
    let solution = solved(alloc, t, p, &sums)?;
    Ok(Found {
        monitors: report.monitors,
        bound: report.bound,
        paths: p.paths().len(),
        along: total(&sums),
        total: total(solution.as_slice()),
    })
}

/// The five rows of a drill: the network of `n` nodes and `l` links that is drawn from the seed is planned; the plan is checked, its
/// paths are measured with drawn delays, and the sums are solved. `drill` repeats the three numbers, `monitors` and `bound` tell how many
/// monitors the plan has and how many its pockets show to be needed, `paths` how many paths it has and the sum of the sums along them,
/// and `total` the sum of the solved delays. The error comes for want of memory alone.
pub fn drill(alloc: Global, seed: u32, n: u32, l: u32) -> Result<Rows, NoMemory>
    requires { CanDraw seed n l }
    ensures { IfOk result (IsDrill seed n l) }
{
    let mut draws = Draws::new(seed);
    let g = network(alloc, &mut draws, n, l)?;
    let t = match Topology::numbered(alloc, g) {
        Ok(t) => t,
        Err(_) => return Err(NoMemory),
    };
    let plan = make_plan(alloc, &t)?;
    let delays = draw_delays(alloc, &mut draws, l)?;
    let found = measured(alloc, &t, &plan, &delays)?;
    drill_rows(alloc, Given { seed, n, l }, found)
}
