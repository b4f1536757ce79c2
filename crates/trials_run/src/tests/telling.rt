// Monitors are judged, single links are told, plans are checked, parts and trees are told.
use crate::tests::stage::{Told, all_end_so, ends_so, is_done, lines_of, run};
use samples::{
    CHORD, HEXAGON, PRISM, SHARING_A_PAIR, STAR, TRIANGLES, TRIANGLES_PLAN, TWO_LINKS,
    TWO_LINKS_PLAN,
};
use std::test::Fail;
use tomo_run::Status;

// A topology and monitors, and what `judge` says.
const JUDGED: [Told<'_>; 8] = [
    ([STAR, b"x\ny\n z \nx\n"], Status::Done, b"yes,3\n"),
    ([STAR, b"y\nx\n"], Status::Negative, b"bad,c,z\n"),
    ([STAR, b""], Status::Negative, b"bad,c,x,y,z\n"),
    ([STAR, b"c\nz,x\ny\n"], Status::Negative, b"bad,x\n"),
    ([STAR, b"q\n"], Status::BadInput, b"refused,f,unknown,1\n"),
    (
        [SHARING_A_PAIR, b"a\nb\nc\n"],
        Status::Negative,
        b"bad,f,g,h\n",
    ),
    ([SHARING_A_PAIR, b"a\nc\nf\n"], Status::Done, b"yes,3\n"),
    // A topology that is refused is told, and not the monitors.
    ([b"a,b\n", b"q\n"], Status::BadInput, b"refused,t,few,2\n"),
];

#[test]
fn monitors_are_judged(rt: HostRuntime) -> Result<(), Fail> {
    assert!(rt; all_end_so(rt.alloc(), "judge", &JUDGED)?);
    Ok(())
}

// Monitors of a star and the two words of `link`, and what it says.
const LINKS: [(&[u8], [&str; 2], Status, &[u8]); 6] = [
    (
        b"x\ny\nz\n",
        ["c", "x"],
        Status::Done,
        b"term,1,x,c,y\nterm,1,x,c,z\nterm,-1,y,c,z\n",
    ),
    (
        b"x\ny\nz\n",
        ["x", "c"],
        Status::Done,
        b"term,1,x,c,y\nterm,1,x,c,z\nterm,-1,y,c,z\n",
    ),
    (
        b"x\ny\nz\n",
        ["q", "x"],
        Status::BadInput,
        b"refused,q,node,a\n",
    ),
    (
        b"x\ny\nz\n",
        ["x", "q"],
        Status::BadInput,
        b"refused,q,node,b\n",
    ),
    (
        b"x\ny\nz\n",
        ["x", "y"],
        Status::BadInput,
        b"refused,x,unlinked,y\n",
    ),
    (b"x\ny\n", ["c", "x"], Status::Negative, b"bad,c,z\n"),
];

#[test]
fn links_are_told(rt: HostRuntime) -> Result<(), Fail> {
    for (monitors, [first, second], status, output) in LINKS {
        let files = [("t", STAR), ("m", monitors)];
        let words = ["link", "t", "m", first, second];
        assert!(rt; ends_so(rt.alloc(), &words, &files, status, output)?);
    }
    Ok(())
}

#[test]
fn a_link_between_triangles_takes_four_paths(rt: HostRuntime) -> Result<(), Fail> {
    let files = [("t", TRIANGLES), ("m", b"a\nb\ne\nf\n".as_slice())];
    let (status, sink) = run(rt.alloc(), &["link", "t", "m", "c", "d"], &files)?;
    assert!(rt; status == Status::Done);
    assert!(rt; lines_of(sink.bytes(), b"term,") == 4);
    assert!(rt; lines_of(sink.bytes(), b"term,0") == 0);
    Ok(())
}

// A topology and a plan, and what `check` says.
const CHECKED: [Told<'_>; 5] = [
    ([TWO_LINKS, TWO_LINKS_PLAN], Status::Done, b"good,3,3\n"),
    ([TRIANGLES, TRIANGLES_PLAN], Status::Done, b"good,4,4\n"),
    (
        [b"a,b\nb,d\n", TWO_LINKS_PLAN],
        Status::Negative,
        b"bad,names,2\n",
    ),
    (
        [TWO_LINKS, b"plan,1\nnode,0,a\n"],
        Status::BadInput,
        b"refused,f,missing,2\n",
    ),
    (
        [b"a,a\n", TWO_LINKS_PLAN],
        Status::BadInput,
        b"refused,t,loop,1\n",
    ),
];

#[test]
fn plans_are_checked(rt: HostRuntime) -> Result<(), Fail> {
    assert!(rt; all_end_so(rt.alloc(), "check", &CHECKED)?);
    Ok(())
}

// Topologies, and what `components` says of each.
const PARTS: [(&[u8], &[u8]); 5] = [
    (
        SHARING_A_PAIR,
        b"node,0,a\nnode,1,b\nnode,2,c\nnode,3,d\nnode,4,e\nnode,5,f\nnode,6,g\nnode,7,h\nblock,0,0 1 2 3 4 5 6 7\n\
            three,0,0,0 1 2 3 4\nthree,1,0,0 1 5 6 7\nend\n",
    ),
    (
        TRIANGLES,
        b"node,0,a\nnode,1,b\nnode,2,c\nnode,3,d\nnode,4,e\nnode,5,f\ncut,2\ncut,3\nblock,0,0 1 2\nblock,1,2 3\n\
            block,2,3 4 5\nend\n",
    ),
    (
        PRISM,
        b"node,0,a\nnode,1,b\nnode,2,c\nnode,3,d\nnode,4,e\nnode,5,f\nblock,0,0 1 2 3 4 5\nthree,0,0,0 1 2 3 4 5\nend\n",
    ),
    (
        CHORD,
        b"node,0,a\nnode,1,b\nnode,2,c\nnode,3,d\nblock,0,0 1 2 3\nend\n",
    ),
    (
        HEXAGON,
        b"node,0,a\nnode,1,b\nnode,2,c\nnode,3,d\nnode,4,e\nnode,5,f\nblock,0,0 1 2 3 4 5\nend\n",
    ),
];

#[test]
fn parts_are_told(rt: HostRuntime) -> Result<(), Fail> {
    for (topology, rows) in PARTS {
        assert!(rt; is_done(rt.alloc(), &["components", "t"], topology, rows)?);
    }
    Ok(())
}

// Words for `components` and `trees`, the topology, and how the run ends.
const OTHERWISE: [(&[&str], &[u8], Status, &[u8]); 5] = [
    (
        &["components", "--header", "t"],
        b"from,to\na,b\nb,c\n",
        Status::Done,
        b"node,0,a\nnode,1,b\nnode,2,c\ncut,1\nblock,0,0 1\nblock,1,1 2\nend\n",
    ),
    (&["components", "t", "t"], CHORD, Status::Usage, b""),
    (&["trees", "t", "--header"], CHORD, Status::Usage, b""),
    (
        &["components", "t"],
        b"a,b\n",
        Status::BadInput,
        b"refused,t,few,2\n",
    ),
    (
        &["trees", "t"],
        b"a,b\nc,d\n",
        Status::BadInput,
        b"refused,t,apart,c\n",
    ),
];

#[test]
fn parts_and_trees_end_otherwise(rt: HostRuntime) -> Result<(), Fail> {
    for (words, topology, status, output) in OTHERWISE {
        assert!(rt; ends_so(rt.alloc(), words, &[("t", topology)], status, output)?);
    }
    Ok(())
}

// Whether a run of `trees` writes lines that begin so, and no others.
fn grows(text: &[u8], lines: &[&[u8]]) -> bool {
    let mut place = 0usize;
    for line in text.split(|byte| *byte == b'\n') {
        let wanted = if place < lines.len() {
            lines[place]
        } else {
            b""
        };
        if !line.starts_with(wanted) || (wanted.is_empty() && !line.is_empty()) {
            return false;
        }
        place = place.wrapping_add(1);
    }
    place == lines.len().wrapping_add(1)
}

#[test]
fn trees_of_a_star_lead_to_its_leaves(rt: HostRuntime) -> Result<(), Fail> {
    let (status, sink) = run(rt.alloc(), &["trees", "t"], &[("t", STAR)])?;
    assert!(rt; status == Status::Done);
    let lines: [&[u8]; 5] = [
        b"tree,0,",
        b"monitor,1,",
        b"monitor,2,",
        b"monitor,3,",
        b"end",
    ];
    assert!(rt; grows(sink.bytes(), &lines));
    Ok(())
}

#[test]
fn all_nodes_of_two_links_are_monitors(rt: HostRuntime) -> Result<(), Fail> {
    let (status, sink) = run(rt.alloc(), &["trees", "t"], &[("t", TWO_LINKS)])?;
    assert!(rt; status == Status::Done);
    let lines: [&[u8]; 4] = [b"monitor,0,", b"monitor,1,", b"monitor,2,", b"end"];
    assert!(rt; grows(sink.bytes(), &lines));
    Ok(())
}
