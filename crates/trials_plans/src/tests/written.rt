// A plan of two triangles joined by a link that is written by hand, with one path more than links.
ghost use Rattle.std.specs.Prelude.{◌<◌, length, IsTrue, IfOk};
ghost use Rattle.plan_form.specs.Good.{IsGoodPlan};

use crate::tests::small::topology_of;
use cert_check::{Report, check};
use link_solver::{Answer, Delays, solve_into};
use plan_form::{Plan, read_plan};
use rows::read_rows;
use samples::{TRIANGLES, TRIANGLES_PLAN};
use std::alloc::Global;
use std::test::Fail;
use tomo_base::NoMemory;
use topology::Topology;

// Whether the plan is good for the topology.
fn is_good(alloc: Global, t: &Topology, p: &Plan) -> Result<bool, NoMemory>
    ensures { IfOk result (λ yes. IsTrue yes → IsGoodPlan t.now.names t.now.graph p.now) }
{
    Ok(matches!(check(alloc, t, p)?, Report::Good { .. }))
}

// The answer of a round over a plan, if it is good and there is one sum for each path.
fn solved(
    alloc: Global,
    t: &Topology,
    plan: &Plan,
    sums: &[u64],
) -> Result<Option<Answer>, NoMemory> {
    if !is_good(alloc, t, plan)? || sums.len() != plan.paths().len() as usize {
        return Ok(None);
    }
    let mut delays = Delays::for_plan(alloc, plan)?;
    Ok(Some(solve_into(t.graph(), plan, sums, &mut delays)))
}

// The answer of a round over the plan in a short text.
fn answer_of(alloc: Global, text: &[u8], sums: &[u64]) -> Result<Option<Answer>, Fail>
    requires { length text.now < 10000 }
{
    rows::laws::fields_are_no_longer_than_their_text();
    let topology = topology_of(alloc, TRIANGLES)?;
    let rows = read_rows(alloc, text)?;
    match read_plan(alloc, &rows) {
        Ok(plan) => Ok(solved(alloc, &topology, &plan, sums)?),
        Err(_) => Ok(None),
    }
}

#[test]
fn the_first_path_with_another_sum_is_named(rt: HostRuntime) -> Result<(), Fail> {
    let alloc = rt.alloc();
    let agreeing = answer_of(alloc, TRIANGLES_PLAN, &[2, 2, 3, 3, 3, 3, 2, 2])?;
    assert!(rt; agreeing == Some(Answer::Solved));
    let other = answer_of(alloc, TRIANGLES_PLAN, &[1, 2, 3, 3, 3, 5, 2, 1])?;
    assert!(rt; other == Some(Answer::Path(2)));
    Ok(())
}
