// A plan of two links with one change.
use crate::tests::stage::{Told, all_end_so, ends_so};
use samples::{TWO_LINKS, TWO_LINKS_PLAN, with_row};
use std::alloc::Global;
use std::test::Fail;
use tomo_run::Status;

const SEVENTEEN_TERMS: &[u8] =
    b"recipe,0,1:0 1:0 1:0 1:0 1:0 1:0 1:0 1:0 1:0 1:0 1:0 1:0 1:0 1:0 1:0 1:0 1:0";

// The row that refuses the plan of two links, the number of a row of it, counted from 1, and what stands in the place of that row.
const REFUSED: [Change; 5] = [
    (b"refused,p,record,1\n", 1, &[b"plan,9"]),
    (b"refused,p,order,2\n", 2, &[b"node,1,a"]),
    (
        b"refused,p,number,5\n",
        5,
        &[b"link,0,0,4294967296", b"link,0,0,01"],
    ),
    (
        b"refused,p,number,15\n",
        15,
        &[b"recipe,0,5:0", b"recipe,0,+2:0", SEVENTEEN_TERMS],
    ),
    (b"refused,p,record,17\n", 17, &[b"end,x"]),
];

type Change = (&'static [u8], usize, &'static [&'static [u8]]);

// The same with the row that names the part where the plan is bad. An empty row is passed over.
const BAD: [Change; 10] = [
    (b"bad,links,0\n", 5, &[b"link,0,1,0"]),
    (b"bad,monitor,0\n", 7, &[b"monitor,4294967295"]),
    (b"bad,monitor,1\n", 8, &[b"monitor,0"]),
    (b"bad,pocket,0\n", 10, &[b"pocket,0,1,3", b"pocket,0,2,0"]),
    (b"bad,pocket,1\n", 11, &[b"pocket,1,1,0"]),
    (b"bad,path,0\n", 13, &[b"path,0,0", b"path,0,1 0"]),
    (b"bad,path,1\n", 14, &[b"path,1,0 1"]),
    (
        b"bad,recipe,0\n",
        15,
        &[b"recipe,0,2:7", b"recipe,0,1:0 1:0"],
    ),
    (b"bad,recipe,1\n", 16, &[b""]),
    (b"bad,recipe,2\n", 16, &[b"recipe,1,2:1\nrecipe,2,2:0"]),
];

// Whether `check` of a plan for two links ends and writes so.
fn is_checked(alloc: Global, plan: &[u8], status: Status, output: &[u8]) -> Result<bool, Fail> {
    let files = [("t", TWO_LINKS), ("p", plan)];
    ends_so(alloc, &["check", "t", "p"], &files, status, output)
}

// Whether `check` of the plan with each of these rows in place of its own ends and writes so.
fn are_checked(alloc: Global, changes: &[Change], status: Status) -> Result<bool, Fail> {
    for &(output, number, rows) in changes {
        for &row in rows {
            let plan = with_row(alloc, TWO_LINKS_PLAN, number, row)?;
            if !is_checked(alloc, &plan, status, output)? {
                return Ok(false);
            }
        }
    }
    Ok(true)
}

#[test]
fn one_change_of_a_plan_is_told(rt: HostRuntime) -> Result<(), Fail> {
    assert!(rt; are_checked(rt.alloc(), &REFUSED, Status::BadInput)?);
    assert!(rt; are_checked(rt.alloc(), &BAD, Status::Negative)?);
    Ok(())
}

#[test]
fn plans_of_few_rows_are_told(rt: HostRuntime) -> Result<(), Fail> {
    let table: [Told<'_>; 4] = [
        ([TWO_LINKS, b""], Status::BadInput, b"refused,f,missing,0\n"),
        (
            [TWO_LINKS, b"end\n"],
            Status::BadInput,
            b"refused,f,order,1\n",
        ),
        (
            [TWO_LINKS, b"plan,1\nend\nend\n"],
            Status::BadInput,
            b"refused,f,after,3\n",
        ),
        (
            [TWO_LINKS, b"plan,1\nend\n"],
            Status::Negative,
            b"bad,names,0\n",
        ),
    ];
    assert!(rt; all_end_so(rt.alloc(), "check", &table)?);
    Ok(())
}

#[test]
fn a_second_end_is_refused(rt: HostRuntime) -> Result<(), Fail> {
    let plan = with_row(rt.alloc(), TWO_LINKS_PLAN, 17, b"end\nend")?;
    assert!(rt; is_checked(rt.alloc(), &plan, Status::BadInput, b"refused,p,after,18\n")?);
    Ok(())
}
