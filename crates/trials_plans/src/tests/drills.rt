// Drills, where memory is ample.
ghost use Rattle.std.specs.Prelude.{◌≡◌, ◌≤◌, ◌^◌, length, All, IfOk};
ghost use Rattle.planner.specs.Planned.{IsPlanned};
ghost use Rattle.drill.specs.Generated.{CanDraw};

use cert_check::{Report, check};
use drill::{drill, generate};
use link_solver::{Answer, Delays, solve_into};
use plan_form::Plan;
use planner::make_plan;
use rows::print_rows;
use simple_path::sum_along;
use std::alloc::Global;
use std::test::Fail;
use tomo_base::Link;
use topology::Topology;

#[test]
fn three_links_are_drawn(rt: HostRuntime) -> Result<(), Fail> {
    let g = generate(rt.alloc(), 1, 3, 3)?;
    let links = [
        Link { a: 0, b: 1 },
        Link { a: 1, b: 2 },
        Link { a: 0, b: 2 },
    ];
    assert!(rt; g.links() == links.as_slice());
    Ok(())
}

#[test]
fn a_triangle_is_drilled(rt: HostRuntime) -> Result<(), Fail> {
    let alloc = rt.alloc();
    let rows = drill(alloc, 1, 3, 3)?;
    let text = b"drill,1,3,3\nmonitors,3\nbound,3\npaths,3,1330000\ntotal,1330000\n";
    assert!(rt; print_rows(alloc, &rows)?.as_slice() == text.as_slice());
    Ok(())
}

// The numbers below `count`.
fn numbers(alloc: Global, count: u32) -> Result<Vec<u64>, Fail>
    ensures count { IfOk result (λ numbers. length numbers.items ≡ count) }
    ensures small { IfOk result (λ numbers. All (λ d. d ≤ 2 ^ 32) numbers.items) }
{
    let mut numbers = Vec::new(alloc);
    for number in 0..count {
        numbers.push(u64::from(number))?;
    }
    Ok(numbers)
}

// The sums along the paths of a plan.
fn sums(alloc: Global, t: &Topology, plan: &Plan, delays: &[u64]) -> Result<Vec<u64>, Fail>
    requires planned { IsPlanned t.now.names t.now.graph plan.now }
    requires one_each { length delays.now ≡ length t.now.graph.links }
    requires small { All (λ d. d ≤ 2 ^ 32) delays.now }
    ensures { IfOk result (λ sums. length sums.items ≡ length plan.now.paths) }
{
    let mut sums = Vec::new(alloc);
    for i in 0..plan.paths().len() {
        sums.push(sum_along(t.graph(), plan.paths().path(i), delays))?;
    }
    Ok(sums)
}

// Whether the plan of a drawn network is found good, with as many monitors as its pockets show, and its sums are solved, where each link
// has its number for a delay.
fn is_solved(alloc: Global, seed: u32, n: u32, l: u32) -> Result<bool, Fail>
    requires { CanDraw seed n l }
{
    let g = generate(alloc, seed, n, l)?;
    let Ok(t) = Topology::numbered(alloc, g) else {
        return Ok(false);
    };
    let plan = make_plan(alloc, &t)?;
    let report = check(alloc, &t, &plan)?;
    let delays = numbers(alloc, l)?;
    let sums = sums(alloc, &t, &plan, &delays)?;
    let mut solved = Delays::for_plan(alloc, &plan)?;
    let answer = solve_into(t.graph(), &plan, &sums, &mut solved);
    Ok(
        matches!(report, Report::Good { monitors, bound } if monitors == bound)
            && answer == Answer::Solved
            && solved.as_slice() == delays.as_slice(),
    )
}

#[test]
fn a_network_of_300_nodes_is_solved(rt: HostRuntime) -> Result<(), Fail> {
    assert!(rt; is_solved(rt.alloc(), 7, 300, 900)?);
    Ok(())
}
