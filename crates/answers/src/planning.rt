// Plans are made and printed.
ghost use Rattle.std.specs.Prelude.{◌≡◌, ◌<◌, ◌≤◌, ◌^◌, IfOk, length};
ghost use Rattle.plan_form.specs.Parts.{IsWellFormed};
ghost use Rattle.plan_form.specs.Good.{IsGoodPlan};
ghost use Rattle.plan_form.specs.PlanRows.{row_count, plan_rows as rows_of_plan};
ghost use Rattle.answers.specs.Planning.{IsKept, Plans, PlansFor, PlansWith};

use crate::answer::Answer;
use crate::chosen::Chosen;
use crate::judging::tell_bad;
use crate::naming::naming_row;
use crate::placed::Placed;
use crate::status::Status;
use judge::{Verdict, judge};
use plan_form::{Plan, plan_rows};
use planner::{Made, make_plan, make_plan_with, plan_for};
use std::alloc::Global;
use tomo_base::NoMemory;
use topology::Topology;

// The answer that has the rows of a good plan. Their text holds the plan, and is short enough to be read again.
fn tell_plan(alloc: Global, topology: &Topology, plan: &Plan) -> Result<Answer, NoMemory>
    requires formed { IsWellFormed plan.now }
    requires good { IsGoodPlan topology.now.names topology.now.graph plan.now }
    requires few_paths { length plan.now.paths ≤ length plan.now.links }
    requires few_rows { row_count plan.now < 2 ^ 32 }
    ensures status { IfOk result (λ a. a.status ≡ Status.Done) }
    ensures rows { IfOk result (λ a. a.rows.closed ≡ rows_of_plan plan.now) }
    ensures kept { IsKept plan.now }
{
    // A topology tells what it keeps.
    let _graph = topology.graph();
    Ok(Answer {
        status: Status::Done,
        rows: plan_rows(alloc, plan)?,
    })
}

/// Plans a network.
pub fn plan(alloc: Global, topology: &Topology) -> Result<Answer, NoMemory>
    ensures { IfOk result (λ a. Plans topology.now a.status a.rows.closed) }
{
    let plan = make_plan(alloc, topology)?;
    tell_plan(alloc, topology, &plan)
}

/// Plans paths for given monitors.
pub fn plan_paths(alloc: Global, placed: &Placed) -> Result<Answer, NoMemory>
    ensures { IfOk result (λ a. PlansFor placed.now.topology placed.now.monitors a.status a.rows.closed) }
{
    if let Verdict::Bad(nodes) = judge(alloc, placed.topology.graph(), &placed.monitors)? {
        return tell_bad(alloc, placed, &nodes);
    }
    let plan = plan_for(alloc, &placed.topology, &placed.monitors)?;
    tell_plan(alloc, &placed.topology, &plan)
}

/// Plans a network under a choice.
pub fn plan_chosen(alloc: Global, chosen: &Chosen) -> Result<Answer, NoMemory>
    ensures { IfOk result (λ a. PlansWith chosen.now.topology chosen.now.choice a.status a.rows.closed) }
{
    match make_plan_with(alloc, &chosen.topology, &chosen.choice)? {
        Made::Plan(plan) => tell_plan(alloc, &chosen.topology, &plan),
        Made::Impossible(bad) => Ok(Answer {
            status: Status::Negative,
            rows: naming_row(alloc, "impossible", &chosen.topology, &bad)?,
        }),
    }
}
