// Plans are read and printed where memory is ample.
ghost use Rattle.std.specs.Prelude.{◌<◌, ◌^◌, length, IfOk};
ghost use Rattle.rows.specs.Rows.{byte_count};

use plan_form::{PlanFault, plan_rows, read_plan};
use rows::{Rows, print_rows, read_rows};
use samples::{COMPLETE_PLAN, STAR_PLAN, TWO_LINKS_PLAN, with_row};
use std::alloc::Global;
use std::test::Fail;
use tomo_base::NoMemory;

const NAME_OF_64_BYTES: &[u8] =
    b"node,0,0123456789012345678901234567890123456789012345678901234567890123";

const NAME_OF_65_BYTES: &[u8] =
    b"node,0,01234567890123456789012345678901234567890123456789012345678901234";

const SIXTEEN_TERMS: &[u8] =
    b"recipe,0,1:0 1:1 1:2 1:3 1:4 1:5 1:6 1:7 1:8 1:9 1:10 1:11 1:12 1:13 1:14 1:15";

const SEVENTEEN_TERMS: &[u8] =
    b"recipe,0,1:0 1:1 1:2 1:3 1:4 1:5 1:6 1:7 1:8 1:9 1:10 1:11 1:12 1:13 1:14 1:15 1:16";

// The rows of a short text.
fn rows_of(alloc: Global, text: &[u8]) -> Result<Rows, NoMemory>
    requires { length text.now < 10000 }
    ensures { IfOk result (λ rows. byte_count rows.closed < 2 ^ 31) }
{
    rows::laws::fields_are_no_longer_than_their_text();
    read_rows(alloc, text)
}

// The text of the plan that a short text is read as.
fn read_and_printed(alloc: Global, text: &[u8]) -> Result<Vec<u8>, PlanFault>
    requires { length text.now < 10000 }
{
    let rows = rows_of(alloc, text)?;
    let plan = read_plan(alloc, &rows)?;
    // Rows are few enough to be counted, so the parts of the plan are.
    let _count = rows.len();
    Ok(print_rows(alloc, &plan_rows(alloc, &plan)?)?)
}

#[test]
fn plans_are_read_and_printed(rt: HostRuntime) -> Result<(), Fail> {
    let alloc = rt.alloc();
    let older = with_row(alloc, TWO_LINKS_PLAN, 1, b"plan,1")?;
    for (text, wanted) in [
        (STAR_PLAN, STAR_PLAN),
        (COMPLETE_PLAN, COMPLETE_PLAN),
        (TWO_LINKS_PLAN, TWO_LINKS_PLAN),
        (older.as_slice(), TWO_LINKS_PLAN),
    ] {
        assert!(rt; text.len() < 10_000);
        match read_and_printed(alloc, text) {
            Ok(printed) => assert!(rt; printed.as_slice() == wanted),
            Err(_) => assert!(rt; false),
        }
    }
    Ok(())
}

// The first fault of a plan of two links in format 1, the number of a row, and what stands in its place.
const FAULTS: [(Option<PlanFault>, usize, &[&[u8]]); 24] = [
    (None, 1, &[b"plan,2"]),
    (
        Some(PlanFault::Record(1)),
        1,
        &[b"plan,3", b"plan,02", b"must,0"],
    ),
    (Some(PlanFault::Order(1)), 1, &[b"node,0,a"]),
    (None, 2, &[NAME_OF_64_BYTES]),
    (
        Some(PlanFault::Record(2)),
        2,
        &[
            b"nodes,0,a",
            b"node,0,a,b",
            b"node,0,",
            b"node,0,\xff",
            NAME_OF_65_BYTES,
        ],
    ),
    (Some(PlanFault::Order(2)), 2, &[b"plan,1", b"plan,2"]),
    (
        Some(PlanFault::Number(5)),
        5,
        &[b"link,00,0,1", b"link,0,+0,1", b"link,0,0,"],
    ),
    (Some(PlanFault::Order(5)), 5, &[b"link,1,0,1"]),
    (None, 7, &[b"monitor,4294967295"]),
    (
        Some(PlanFault::Record(7)),
        7,
        &[b"must,0", b"not,0", b"plan,1,0"],
    ),
    (Some(PlanFault::Order(7)), 7, &[b"node,x,d"]),
    (
        Some(PlanFault::Number(7)),
        7,
        &[b"monitor,4294967296", b"monitor,18446744073709551616"],
    ),
    (
        Some(PlanFault::Number(10)),
        10,
        &[b"pocket,0, 1,0", b"pocket,0,1,"],
    ),
    (None, 13, &[b"path,0,7"]),
    (Some(PlanFault::Record(13)), 13, &[b"path,0"]),
    (
        Some(PlanFault::Number(13)),
        13,
        &[b"path,0,0  1", b"path,0,0 1 "],
    ),
    (
        None,
        15,
        &[b"recipe,0,4:0 -4:1 1:4294967295", SIXTEEN_TERMS],
    ),
    (
        Some(PlanFault::Number(15)),
        15,
        &[
            b"recipe,0,5:0",
            b"recipe,0,-5:0",
            b"recipe,0,0:0",
            b"recipe,0,+2:0",
            b"recipe,0,2",
            b"recipe,0,2:",
            b"recipe,0,2:0:0",
            SEVENTEEN_TERMS,
            b"recipe,1,5:0",
        ],
    ),
    (Some(PlanFault::Order(15)), 15, &[b"recipe,1,2:0"]),
    (Some(PlanFault::After(16)), 15, &[b"end"]),
    (Some(PlanFault::After(17)), 16, &[b"end"]),
    (Some(PlanFault::Record(17)), 17, &[b"end,1"]),
    (Some(PlanFault::Missing(17)), 17, &[b"recipe,2,2:1"]),
    (Some(PlanFault::Missing(16)), 17, &[b""]),
];

#[test]
fn the_first_fault_is_answered(rt: HostRuntime) -> Result<(), Fail> {
    let alloc = rt.alloc();
    let older = with_row(alloc, TWO_LINKS_PLAN, 1, b"plan,1")?;
    for (fault, number, changes) in FAULTS {
        for &row in changes {
            let text = with_row(alloc, &older, number, row)?;
            assert!(rt; text.len() < 10_000);
            let rows = rows_of(alloc, &text)?;
            let read = read_plan(alloc, &rows);
            assert_eq!(rt; read.err(), fault, "row {number}");
        }
    }
    let rows = rows_of(alloc, b"")?;
    assert!(rt; read_plan(alloc, &rows).err() == Some(PlanFault::Missing(0)));
    Ok(())
}

// The text of a plan of format 2 with one link, with these rows in place of a choice.
fn with_choice(alloc: Global, choice: &[u8]) -> Result<Vec<u8>, NoMemory> {
    let mut text = Vec::new(alloc);
    for part in [
        b"plan,2\nnode,0,a\nlink,0,0,1\n".as_slice(),
        choice,
        b"monitor,0\nend\n",
    ] {
        text.extend_from_slice(part)?;
    }
    Ok(text)
}

#[test]
fn forced_and_barred_nodes_are_read(rt: HostRuntime) -> Result<(), Fail> {
    let alloc = rt.alloc();
    for (choice, fault) in [
        (b"must,1\nmust,0\nnot,4294967295\n".as_slice(), None),
        (b"not,0\nmust,1\n", Some(PlanFault::Order(5))),
        (b"must,x\n", Some(PlanFault::Number(4))),
        (b"must,0,1\n", Some(PlanFault::Record(4))),
        (b"not,0\nplan,1\n", Some(PlanFault::Order(5))),
        (b"not,00\n", Some(PlanFault::Number(4))),
    ] {
        let text = with_choice(alloc, choice)?;
        assert!(rt; text.len() < 10_000);
        let rows = rows_of(alloc, &text)?;
        assert!(rt; read_plan(alloc, &rows).err() == fault);
    }
    Ok(())
}
