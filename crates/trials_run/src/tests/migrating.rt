// Plans are carried over to the newest format.
use crate::tests::stage::{Files, run, run_over_plan, run_over_two};
use samples::{
    COMPLETE, COMPLETE_PLAN, SHARING_A_NODE, STAR, STAR_PLAN, TRIANGLES, TRIANGLES_PLAN, TWO_LINKS,
    TWO_LINKS_PLAN, with_row,
};
use std::test::Fail;
use tomo_run::Status;

#[test]
fn a_plan_of_the_older_format_has_another_first_row(rt: HostRuntime) -> Result<(), Fail> {
    for (topology, plan) in [
        (TWO_LINKS, TWO_LINKS_PLAN),
        (STAR, STAR_PLAN),
        (COMPLETE, COMPLETE_PLAN),
        (TRIANGLES, TRIANGLES_PLAN),
    ] {
        let older = with_row(rt.alloc(), plan, 1, b"plan,1")?;
        let (status, sink) = run_over_two(rt.alloc(), "migrate", topology, &older)?;
        assert!(rt; status == Status::Done);
        assert!(rt; sink.bytes() == plan);
    }
    Ok(())
}

#[test]
fn a_plan_of_the_newest_format_stays_as_it_is(rt: HostRuntime) -> Result<(), Fail> {
    let files: Files<'_> = &[("t", SHARING_A_NODE), ("c", b"must,d\nnot,g\n")];
    let planning = ["plan", "t", "c"];
    let (_, plan) = run(rt.alloc(), &planning, files)?;
    let (status, sink) = run_over_plan(rt.alloc(), &planning, &["migrate", "t", "p"], files)?;
    assert!(rt; status == Status::Done);
    assert!(rt; sink.bytes() == plan.bytes());
    Ok(())
}

#[test]
fn a_topology_may_have_a_header(rt: HostRuntime) -> Result<(), Fail> {
    let files: Files<'_> = &[("t", b"from,to\na,b\nb,c\n"), ("p", TWO_LINKS_PLAN)];
    let (status, sink) = run(rt.alloc(), &["migrate", "--header", "t", "p"], files)?;
    assert!(rt; status == Status::Done);
    assert!(rt; sink.bytes() == TWO_LINKS_PLAN);
    Ok(())
}

#[test]
fn a_plan_with_a_fault_is_refused(rt: HostRuntime) -> Result<(), Fail> {
    let turned = b"recipe,3,1:1 1:2 1:5 -1:6".as_slice();
    let plan = with_row(rt.alloc(), TRIANGLES_PLAN, 34, turned)?;
    let (status, sink) = run_over_two(rt.alloc(), "migrate", TRIANGLES, &plan)?;
    assert!(rt; status == Status::BadInput);
    assert!(rt; sink.bytes() == b"refused,f,check-recipe,3\n".as_slice());
    Ok(())
}
