// Plans are made where memory is ample.
ghost use Rattle.std.specs.Prelude.{◌<◌, ◌^◌, length};

use crate::tests::small::{CHAIN, topology_of};
use plan_form::Plan;
use planner::make_plan;
use samples::{STAR, TRIANGLES};
use std::alloc::Global;
use std::test::Fail;

// The plan of the topology with these rows.
fn plan_of(alloc: Global, text: &[u8]) -> Result<Plan, Fail>
    requires { length text.now < 2 ^ 31 }
{
    let topology = topology_of(alloc, text)?;
    Ok(make_plan(alloc, &topology)?)
}

#[test]
fn a_chain_is_planned(rt: HostRuntime) -> Result<(), Fail> {
    let plan = plan_of(rt.alloc(), CHAIN)?;
    assert!(rt; plan.monitors() == [0, 1, 2].as_slice());
    assert!(rt; plan.pocket_count() == 3);
    assert!(rt; plan.paths().len() == 2);
    assert!(rt; plan.paths().path(1) == [0, 2].as_slice());
    Ok(())
}

#[test]
fn a_star_is_planned(rt: HostRuntime) -> Result<(), Fail> {
    let plan = plan_of(rt.alloc(), STAR)?;
    assert!(rt; plan.monitors() == [1, 2, 3].as_slice());
    assert!(rt; plan.paths().len() == 3);
    assert!(rt; plan.recipes().len() == 3);
    assert!(rt; plan.recipes().at(0).terms().len() == 3);
    Ok(())
}

#[test]
fn two_triangles_joined_by_a_link_are_planned(rt: HostRuntime) -> Result<(), Fail> {
    let plan = plan_of(rt.alloc(), TRIANGLES)?;
    assert!(rt; plan.monitors() == [0, 1, 4, 5].as_slice());
    assert!(rt; plan.pocket_count() == 4);
    assert!(rt; plan.paths().len() == 7);
    assert!(rt; plan.recipes().len() == 7);
    Ok(())
}
