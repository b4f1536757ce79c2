// Plans under a choice, and choices that are refused.
use crate::tests::planning::has_piece;
use crate::tests::stage::{
    Files, Told, all_end_so, ends_so, lines_of, run, run_over_plan, run_over_two,
};
use samples::{COMPLETE, SHARING_A_NODE, with_row};
use std::alloc::Global;
use std::test::Fail;
use tomo_run::Status;

// A topology, a choice, and rows that the plan under the choice has.
const CHOSEN: [([&[u8]; 2], &[u8]); 3] = [
    (
        [COMPLETE, b"not,a\n"],
        b"\nnot,0\nmonitor,1\nmonitor,2\nmonitor,3\npocket,0,3,0 1 2 3\npath,",
    ),
    (
        [SHARING_A_NODE, b"must,d\n"],
        b"\nmust,3\nmonitor,0\nmonitor,1\nmonitor,3\nmonitor,4\nmonitor,5\npocket,0,2,0 1 2\npocket,1,2,4 5 6\npath,",
    ),
    (
        [SHARING_A_NODE, b""],
        b"link,11,5,6\nmonitor,0\nmonitor,1\nmonitor,4\nmonitor,5\npocket,0,2,0 1 2\npocket,1,2,4 5 6\npath,",
    ),
];

#[test]
fn forced_nodes_are_monitors_and_barred_ones_are_none(rt: HostRuntime) -> Result<(), Fail> {
    for ([topology, choice], rows) in CHOSEN {
        let (status, sink) = run_over_two(rt.alloc(), "plan", topology, choice)?;
        assert!(rt; status == Status::Done);
        assert!(rt; has_piece(sink.bytes(), rows));
    }
    Ok(())
}

#[test]
fn a_plan_with_a_forced_node_is_good(rt: HostRuntime) -> Result<(), Fail> {
    let files: Files<'_> = &[("t", SHARING_A_NODE), ("c", b"must,d\n")];
    let (planning, check) = (["plan", "t", "c"], ["check", "t", "p"]);
    let (_, report) = run_over_plan(rt.alloc(), &planning, &check, files)?;
    assert!(rt; report.bytes() == b"good,5,5\n".as_slice());
    Ok(())
}

// The row of a forced node in the plan of two complete graphs that share it.
const FORCED_ROW: usize = 21;

#[test]
fn another_forced_or_barred_node_is_a_fault(rt: HostRuntime) -> Result<(), Fail> {
    let alloc = rt.alloc();
    let (_, plan) = run(
        alloc,
        &["plan", "t", "c"],
        &[("t", SHARING_A_NODE), ("c", b"must,d\n")],
    )?;
    for (row, report) in [
        (b"must,6".as_slice(), b"bad,must,0\n".as_slice()),
        (b"must,3\nnot,4", b"bad,not,0\n"),
    ] {
        let changed = with_row(alloc, plan.bytes(), FORCED_ROW, row)?;
        let files: Files<'_> = &[("t", SHARING_A_NODE), ("p", &changed)];
        assert!(rt; ends_so(alloc, &["check", "t", "p"], files, Status::Negative, report)?);
    }
    Ok(())
}

// The row that refuses choices over the complete graph of four nodes, and such choices.
const REFUSED: [(&[u8], &[&[u8]]); 5] = [
    (b"refused,f,clash,2\n", &[b"must,a\nnot,a\n"]),
    (b"refused,f,clash,3\n", &[b" not\t, a ,x\nnot,b\nmust,a\n"]),
    (b"refused,f,word,1\n", &[b"may,a\n", b"Must,a\n"]),
    (b"refused,f,width,1\n", &[b"must\n", b"may\n"]),
    (b"refused,f,unknown,1\n", &[b"must,q\n", b"not,q\n"]),
];

#[test]
fn other_choices_are_refused(rt: HostRuntime) -> Result<(), Fail> {
    for (row, choices) in REFUSED {
        for &choice in choices {
            let told: Told<'_> = ([COMPLETE, choice], Status::BadInput, row);
            assert!(rt; all_end_so(rt.alloc(), "plan", &[told])?);
        }
    }
    Ok(())
}

#[test]
fn two_barred_nodes_of_four_are_too_many(rt: HostRuntime) -> Result<(), Fail> {
    let choice = b"not,a\nnot,b\n";
    let told: Told<'_> = ([COMPLETE, choice], Status::Negative, b"impossible,a,b\n");
    assert!(rt; all_end_so(rt.alloc(), "plan", &[told])?);
    Ok(())
}

// The connected graphs of four nodes, each but for the names of its nodes.
const OF_FOUR_NODES: [&[u8]; 6] = [
    b"a,b\nb,c\nc,d\n",
    b"a,b\na,c\na,d\n",
    b"a,b\nb,c\nc,d\nd,a\n",
    b"a,b\nb,c\nc,a\nc,d\n",
    b"a,b\nb,c\nc,d\nd,a\na,c\n",
    COMPLETE,
];

const NAMES: [&[u8]; 4] = [b"a\n", b"b\n", b"c\n", b"d\n"];

// What the digits of a number to the base of three say of each node: nothing, that it must be a monitor, or that it must not.
fn choice_with(alloc: Global, number: u32) -> Result<Vec<u8>, Fail> {
    let mut text = Vec::new(alloc);
    let mut left = number;
    for name in NAMES {
        match left % 3 {
            1 => text.extend_from_slice(b"must,")?,
            2 => text.extend_from_slice(b"not,")?,
            _ => (),
        }
        if left % 3 > 0 {
            text.extend_from_slice(name)?;
        }
        left /= 3;
    }
    Ok(text)
}

// The rows of these monitors in a plan.
const ROWS: [&[u8]; 4] = [
    b"monitor,0\n",
    b"monitor,1\n",
    b"monitor,2\n",
    b"monitor,3\n",
];

// Those of four lines whose digits are 1 in a number to the base of two.
fn lines_with(alloc: Global, lines: [&[u8]; 4], number: u32) -> Result<Vec<u8>, Fail> {
    let mut text = Vec::new(alloc);
    let mut left = number;
    for line in lines {
        if left % 2 == 1 {
            text.extend_from_slice(line)?;
        }
        left /= 2;
    }
    Ok(text)
}

// Whether the monitors hold all nodes that must be among them and none that must not.
fn is_allowed(monitors: u32, choice: u32) -> bool {
    let (mut inside, mut said) = (monitors, choice);
    for _ in NAMES {
        if (said % 3 == 1 && inside % 2 == 0) || (said % 3 == 2 && inside % 2 == 1) {
            return false;
        }
        inside /= 2;
        said /= 3;
    }
    true
}

// The first of all sets that is allowed and identifies every link: that of the least number has the fewest high nodes.
fn lowest_by_trying(alloc: Global, topology: &[u8], choice: u32) -> Result<Option<u32>, Fail> {
    for monitors in 0..16 {
        if is_allowed(monitors, choice) {
            let names = lines_with(alloc, NAMES, monitors)?;
            let (status, _) = run_over_two(alloc, "judge", topology, &names)?;
            if status == Status::Done {
                return Ok(Some(monitors));
            }
        }
    }
    Ok(None)
}

// Whether a plan under a choice has the monitors of the lowest set that all sets tried one by one give, or tells that there is none.
fn is_lowest(alloc: Global, topology: &[u8], number: u32) -> Result<bool, Fail> {
    let choice = choice_with(alloc, number)?;
    let (status, sink) = run_over_two(alloc, "plan", topology, &choice)?;
    match lowest_by_trying(alloc, topology, number)? {
        None => Ok(status == Status::Negative && sink.bytes().starts_with(b"impossible,")),
        Some(monitors) => {
            let rows = lines_with(alloc, ROWS, monitors)?;
            let same = lines_of(sink.bytes(), b"monitor,") == lines_of(&rows, b"monitor,");
            Ok(status == Status::Done && same && has_piece(sink.bytes(), &rows))
        }
    }
}

#[test]
fn under_every_choice_the_lowest_set_is_placed(rt: HostRuntime) -> Result<(), Fail> {
    for topology in OF_FOUR_NODES {
        for choice in 0..81 {
            assert!(rt; is_lowest(rt.alloc(), topology, choice)?);
        }
    }
    Ok(())
}
