// Plans, and paths for given monitors.
use crate::tests::stage::{Told, all_end_so, is_done, lines_of, plan_begins, run, run_over_plan};
use samples::{
    CAMPUS, COMPLETE, COMPLETE_PLAN, COMPLETE_WITH_A_LEAF, RING, RING_PLAN, SHARING_A_NODE,
    SHARING_A_PAIR, STAR, STAR_PATHS, STAR_PLAN, TRIANGLES, TWO_LINKS, TWO_LINKS_PLAN,
};
use std::test::Fail;
use tomo_run::Status;

const WHOLE: [(&[u8], &[u8]); 4] = [
    (TWO_LINKS, TWO_LINKS_PLAN),
    (RING, RING_PLAN),
    (STAR, STAR_PLAN),
    (COMPLETE, COMPLETE_PLAN),
];

#[test]
fn small_networks_are_planned(rt: HostRuntime) -> Result<(), Fail> {
    for (topology, plan) in WHOLE {
        assert!(rt; is_done(rt.alloc(), &["plan", "t"], topology, plan)?);
    }
    Ok(())
}

// One topology, as people write it.
const SPELLED: [(&[&str], &[u8]); 3] = [
    (&["plan", "t"], b"\"a\",b\r\nb,c,7\r\n"),
    (
        &["plan", "--header", "t"],
        b"\xef\xbb\xbffrom,to\na,b\nb,c\n",
    ),
    (&["plan", "t"], b"a,b\nb,a\n\nb,c,12\nc,b\n"),
];

#[test]
fn links_may_be_spelled_in_several_ways(rt: HostRuntime) -> Result<(), Fail> {
    for (words, topology) in SPELLED {
        assert!(rt; is_done(rt.alloc(), words, topology, TWO_LINKS_PLAN)?);
    }
    Ok(())
}

const LEAF_ROWS: &[u8] =
    b"plan,2\nnode,0,a\nnode,1,b\nnode,2,c\nnode,3,d\nnode,4,e\nlink,0,0,1\nlink,1,0,2\nlink,2,0,3\nlink,3,1,2\nlink,4,1,3\n\
    link,5,2,3\nlink,6,3,4\nmonitor,0\nmonitor,1\nmonitor,4\npocket,0,2,0 1 2\npocket,1,1,4\npath,0,";

#[test]
fn a_leaf_needs_a_monitor(rt: HostRuntime) -> Result<(), Fail> {
    assert!(rt; plan_begins(rt.alloc(), COMPLETE_WITH_A_LEAF, LEAF_ROWS)?);
    Ok(())
}

// Topologies, the rows of the monitors and pockets that are planned, and how many links there are.
const PLACED: [(&[u8], &[u8], u32); 3] = [
    (
        SHARING_A_NODE,
        b"\nmonitor,0\nmonitor,1\nmonitor,4\nmonitor,5\npocket,0,2,0 1 2\npocket,1,2,4 5 6\npath,0,",
        12,
    ),
    (
        SHARING_A_PAIR,
        b"\nmonitor,0\nmonitor,2\nmonitor,5\npocket,0,3,0 1 2 3 4 5 6 7\npath,0,",
        19,
    ),
    (
        TRIANGLES,
        b"\nmonitor,0\nmonitor,1\nmonitor,4\nmonitor,5\npocket,0,1,0\npocket,1,1,1\npocket,2,1,4\npocket,3,1,5\npath,0,",
        7,
    ),
];

// Whether a piece stands somewhere in a text.
pub fn has_piece(text: &[u8], piece: &[u8]) -> bool {
    for at in 0..text.len() {
        if text[at..].starts_with(piece) {
            return true;
        }
    }
    false
}

#[test]
fn monitors_pockets_and_as_many_paths_as_links(rt: HostRuntime) -> Result<(), Fail> {
    for (topology, rows, links) in PLACED {
        let (status, sink) = run(rt.alloc(), &["plan", "t"], &[("t", topology)])?;
        assert!(rt; status == Status::Done);
        assert!(rt; has_piece(sink.bytes(), rows));
        assert!(rt; lines_of(sink.bytes(), b"path,") == links);
        assert!(rt; lines_of(sink.bytes(), b"recipe,") == links);
    }
    Ok(())
}

#[test]
fn a_campus_is_planned_and_its_plan_is_good(rt: HostRuntime) -> Result<(), Fail> {
    let (planning, check) = (["plan", "--header", "t"], ["check", "--header", "t", "p"]);
    let (status, sink) = run_over_plan(rt.alloc(), &planning, &check, &[("t", CAMPUS)])?;
    assert!(rt; status == Status::Done);
    assert!(rt; sink.bytes() == b"good,9,9\n".as_slice());
    Ok(())
}

#[test]
fn a_campus_has_as_many_paths_as_links(rt: HostRuntime) -> Result<(), Fail> {
    let (status, sink) = run(rt.alloc(), &["plan", "--header", "t"], &[("t", CAMPUS)])?;
    assert!(rt; status == Status::Done);
    assert!(rt; lines_of(sink.bytes(), b"path,") == 62);
    assert!(rt; lines_of(sink.bytes(), b"monitor,") == 9);
    Ok(())
}

// A topology and monitors, and what `paths` says.
const GIVEN: [Told<'_>; 3] = [
    ([STAR, b"x\ny\nz\nx\n"], Status::Done, STAR_PATHS),
    ([STAR, b"x\ny\n"], Status::Negative, b"bad,c,z\n"),
    (
        [COMPLETE, b"a\nb\nc\nd\n"],
        Status::Done,
        b"plan,2\nnode,0,a\nnode,1,b\nnode,2,c\nnode,3,d\nlink,0,0,1\nlink,1,0,2\nlink,2,0,3\nlink,3,1,2\nlink,4,1,3\n\
            link,5,2,3\nmonitor,0\nmonitor,1\nmonitor,2\nmonitor,3\npath,0,0 1\npath,1,0 2\npath,2,0 3\npath,3,1 2\npath,4,1 3\n\
            path,5,2 3\nrecipe,0,2:0\nrecipe,1,2:1\nrecipe,2,2:2\nrecipe,3,2:3\nrecipe,4,2:4\nrecipe,5,2:5\nend\n",
    ),
];

#[test]
fn paths_are_planned_for_given_monitors(rt: HostRuntime) -> Result<(), Fail> {
    assert!(rt; all_end_so(rt.alloc(), "paths", &GIVEN)?);
    Ok(())
}

#[test]
fn paths_for_given_monitors_are_as_many_as_links_and_good(rt: HostRuntime) -> Result<(), Fail> {
    let files = [("t", TRIANGLES), ("m", b"a\nb\ne\nf\n".as_slice())];
    let (_, plan) = run(rt.alloc(), &["paths", "t", "m"], &files)?;
    assert!(rt; lines_of(plan.bytes(), b"path,") == 7);
    let (planning, check) = (["paths", "t", "m"], ["check", "t", "p"]);
    let (_, report) = run_over_plan(rt.alloc(), &planning, &check, &files)?;
    assert!(rt; report.bytes() == b"good,4,0\n".as_slice());
    Ok(())
}
