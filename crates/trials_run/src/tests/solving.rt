// Rounds are solved, and drills are made.
use crate::tests::stage::{Told, all_end_so, ends_so, lines_of, run, run_over_plan};
use samples::{
    COMPLETE, COMPLETE_PLAN, STAR, STAR_PLAN, TRIANGLES, TRIANGLES_PLAN, TWO_LINKS, TWO_LINKS_PLAN,
    with_row,
};
use std::alloc::Global;
use std::test::Fail;
use tomo_run::Status;

// Whether `solve` over a topology, a plan and rounds ends and writes so.
fn is_solved(
    alloc: Global,
    files: [&[u8]; 3],
    status: Status,
    output: &[u8],
) -> Result<bool, Fail> {
    let [topology, plan, rounds] = files;
    let files = [("t", topology), ("p", plan), ("r", rounds)];
    ends_so(alloc, &["solve", "t", "p", "r"], &files, status, output)
}

// What rounds over the plan of a star are, their sums, how `solve` ends, and what it prints after the rows of the links.
const STAR_ROUNDS: [(&str, &[u8], Status, &[u8]); 6] = [
    (
        "one",
        b"5,6,7\n",
        Status::Done,
        b"round,0,ok,2,3,4\nend,1,0\n",
    ),
    (
        "blanks and zeros",
        b"005, 6 ,7\n",
        Status::Done,
        b"round,0,ok,2,3,4\nend,1,0\n",
    ),
    (
        "an odd value",
        b"5,6,8\n",
        Status::Negative,
        b"round,0,odd,0\nend,1,1\n",
    ),
    (
        "a negative value",
        b"2,2,10\n",
        Status::Negative,
        b"round,0,negative,0\nend,1,1\n",
    ),
    (
        "the largest delay, and more",
        b"2000000000000000,2000000000000000,2000000000000000\n2000000000000002,2000000000000002,2000000000000002\n",
        Status::Negative,
        b"round,0,ok,1000000000000000,1000000000000000,1000000000000000\nround,1,large,0\nend,2,1\n",
    ),
    ("none", b"", Status::Done, b"end,0,0\n"),
];

#[test]
fn rounds_over_a_star_are_solved(rt: HostRuntime) -> Result<(), Fail> {
    for (what, rounds, status, rows) in STAR_ROUNDS {
        let mut output = b"link,0,c,x\nlink,1,c,y\nlink,2,c,z\n".to_vec(rt.alloc())?;
        output.extend_from_slice(rows)?;
        let told = is_solved(rt.alloc(), [STAR, STAR_PLAN, rounds], status, &output)?;
        assert_eq!(rt; told, true, "{what}");
    }
    Ok(())
}

// The row that refuses rounds over the plan of a star, and such rounds.
const REFUSED_ROUNDS: [(&[u8], &[&[u8]]); 4] = [
    (b"refused,r,width,1\n", &[b"5,6\n"]),
    (b"refused,r,width,2\n", &[b"5,6,7\n5,6\n"]),
    (
        b"refused,r,number,1 2\n",
        &[
            b"5,x,7\n",
            b"5,-1,7\n",
            b"5,2000000000000000001,7\n",
            b"5,99999999999999999999,7\n",
        ],
    ),
    (b"refused,r,number,1 3\n", &[b"5,6,000000000000000000007\n"]),
];

#[test]
fn other_rounds_are_refused(rt: HostRuntime) -> Result<(), Fail> {
    for (row, texts) in REFUSED_ROUNDS {
        for &rounds in texts {
            assert!(rt; is_solved(rt.alloc(), [STAR, STAR_PLAN, rounds], Status::BadInput, row)?);
        }
    }
    Ok(())
}

// A topology, a plan and rounds, and what `solve` says.
const OTHER_ROUNDS: [([&[u8]; 3], Status, &[u8]); 6] = [
    (
        [
            TWO_LINKS,
            TWO_LINKS_PLAN,
            b"5, 7 \n0,1000000000000000\n1000000000000001,0\n",
        ],
        Status::Negative,
        b"link,0,a,b\nlink,1,b,c\nround,0,ok,5,7\nround,1,ok,0,1000000000000000\nround,2,large,0\nend,3,1\n",
    ),
    (
        [COMPLETE, COMPLETE_PLAN, b"1,2,8,9,4,11\n"],
        Status::Done,
        b"link,0,a,b\nlink,1,a,c\nlink,2,a,d\nlink,3,b,c\nlink,4,b,d\nlink,5,c,d\nround,0,ok,1,2,3,4,5,6\nend,1,0\n",
    ),
    (
        [TRIANGLES, TRIANGLES_PLAN, b"1,2,3,3,3,3,2,1\n"],
        Status::Done,
        b"link,0,a,b\nlink,1,a,c\nlink,2,b,c\nlink,3,c,d\nlink,4,d,e\nlink,5,d,f\nlink,6,e,f\nround,0,ok,1,1,1,1,1,1,1\nend,1,0\n",
    ),
    // The eight paths of a plan that is not tied can disagree, in one round or in several.
    (
        [TRIANGLES, TRIANGLES_PLAN, b"1,2,3,3,3,5,2,1\n"],
        Status::Negative,
        b"link,0,a,b\nlink,1,a,c\nlink,2,b,c\nlink,3,c,d\nlink,4,d,e\nlink,5,d,f\nlink,6,e,f\nround,0,path,2\nend,1,1\n",
    ),
    (
        [
            TRIANGLES,
            TRIANGLES_PLAN,
            b"1,2,3,3,3,3,2,1\n1,2,3,3,3,5,2,1\n1,2,3,3,3,3,2,1\n1,2,3,3,3,3,2,1\n",
        ],
        Status::Negative,
        b"link,0,a,b\nlink,1,a,c\nlink,2,b,c\nlink,3,c,d\nlink,4,d,e\nlink,5,d,f\nlink,6,e,f\nround,0,ok,1,1,1,1,1,1,1\nround,1,path,2\nround,2,ok,1,1,1,1,1,1,1\nround,3,ok,1,1,1,1,1,1,1\nend,4,1\n",
    ),
    (
        [b"a,b\nb,d\n", TWO_LINKS_PLAN, b"5,7\n"],
        Status::BadInput,
        b"refused,p,check-names,2\n",
    ),
];

#[test]
fn rounds_over_other_plans_are_solved(rt: HostRuntime) -> Result<(), Fail> {
    for (files, status, output) in OTHER_ROUNDS {
        assert!(rt; is_solved(rt.alloc(), files, status, output)?);
    }
    Ok(())
}

#[test]
fn a_recipe_with_another_sign_is_refused(rt: HostRuntime) -> Result<(), Fail> {
    let turned = b"recipe,3,1:1 1:2 1:5 -1:6".as_slice();
    let plan = with_row(rt.alloc(), TRIANGLES_PLAN, 34, turned)?;
    let told: Told<'_> = ([TRIANGLES, &plan], Status::Negative, b"bad,recipe,3\n");
    assert!(rt; all_end_so(rt.alloc(), "check", &[told])?);
    Ok(())
}

#[test]
fn no_round_over_a_printed_plan_names_a_path(rt: HostRuntime) -> Result<(), Fail> {
    let rounds =
        b"0,0,0,0,0,0,0\n2,0,0,0,0,0,0\n4,4,4,4,4,4,4\n2,4,6,8,10,12,14\n14,2,12,4,10,6,8\n90,80,70,60,50,40,30\n";
    let files = [("t", TRIANGLES), ("r", rounds.as_slice())];
    let (planning, solving) = (["plan", "t"], ["solve", "t", "p", "r"]);
    let (_, sink) = run_over_plan(rt.alloc(), &planning, &solving, &files)?;
    assert!(rt; lines_of(sink.bytes(), b"round,") == 6);
    assert!(rt; lines_of(sink.bytes(), b"round,0,ok,0,0,0,0,0,0,0") == 1);
    for k in [
        b"round,1,path".as_slice(),
        b"round,2,path",
        b"round,3,path",
        b"round,4,path",
        b"round,5,path",
    ] {
        assert!(rt; lines_of(sink.bytes(), k) == 0);
    }
    Ok(())
}

#[test]
fn a_ring_is_drilled(rt: HostRuntime) -> Result<(), Fail> {
    let rows = b"drill,1,3,3\nmonitors,3\nbound,3\npaths,3,1330000\ntotal,1330000\n";
    let words = ["drill", "1", "3", "3"];
    assert!(rt; ends_so(rt.alloc(), &words, &[], Status::Done, rows)?);
    Ok(())
}

#[test]
fn a_large_network_is_drilled(rt: HostRuntime) -> Result<(), Fail> {
    let (status, sink) = run(rt.alloc(), &["drill", "7", "300", "900"], &[])?;
    assert!(rt; status == Status::Done);
    let begin = b"drill,7,300,900\nmonitors,12\nbound,12\npaths,900,".as_slice();
    assert!(rt; sink.bytes().starts_with(begin));
    Ok(())
}
