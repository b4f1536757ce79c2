// Words without a shape, files that are refused, and devices that fail.
use crate::tests::stage::{Told, all_end_so, ends_so, lines_of, run, shelf_of, words_of};
use outside::MemSink;
use samples::{TWO_LINKS, TWO_LINKS_PLAN};
use std::alloc::Global;
use std::test::Fail;
use tomo_run::{Status, tomo};

// Topologies that are refused, and the row that says why.
const REFUSED: [(&[u8], &[u8]); 8] = [
    (b"", b"refused,t,few,0\n"),
    (b"a,b\n", b"refused,t,few,2\n"),
    (b"a\n", b"refused,t,width,1\n"),
    (b"a,b\n ,c\n", b"refused,t,name,2\n"),
    (b"a,b\nc,d\nd,d\n", b"refused,t,loop,3\n"),
    (b"a,b\nc,d\n", b"refused,t,apart,c\n"),
    (b"a,b\nb,b\nc\n", b"refused,t,loop,2\n"),
    (
        b"01234567890123456789012345678901234567890123456789012345678901234,b\nb,c\n",
        b"refused,t,name,1\n",
    ),
];

// Whether a topology is refused with this row.
fn is_refused(alloc: Global, topology: &[u8], row: &[u8]) -> Result<bool, Fail> {
    let files = [("t", topology)];
    ends_so(alloc, &["plan", "t"], &files, Status::BadInput, row)
}

#[test]
fn other_topologies_are_refused(rt: HostRuntime) -> Result<(), Fail> {
    for (topology, row) in REFUSED {
        assert!(rt; is_refused(rt.alloc(), topology, row)?);
    }
    Ok(())
}

// The rows of a chain of nodes, each linked to the next.
fn chain(alloc: Global, links: u32) -> Result<String, Fail> {
    let mut text = String::new(alloc);
    for low in 0..links {
        text.push_str(&format!(in alloc; "n{low},n{}\n", u64::from(low) + 1)?)?;
    }
    Ok(text)
}

// The pairs of the first `count` numbers in lexicographic order, each as a row.
fn pairs(alloc: Global, count: u32) -> Result<String, Fail> {
    let mut text = String::new(alloc);
    for low in 0..count {
        for high in low..count {
            if low < high {
                text.push_str(&format!(in alloc; "{low},{high}\n")?)?;
            }
        }
    }
    Ok(text)
}

#[test]
fn two_thousand_nodes_are_planned(rt: HostRuntime) -> Result<(), Fail> {
    let text = chain(rt.alloc(), 1999)?;
    let (status, sink) = run(rt.alloc(), &["plan", "t"], &[("t", text.as_bytes())])?;
    assert!(rt; status == Status::Done);
    assert!(rt; lines_of(sink.bytes(), b"monitor,") == 2000);
    assert!(rt; lines_of(sink.bytes(), b"path,") == 1999);
    Ok(())
}

#[test]
fn a_node_more_is_refused(rt: HostRuntime) -> Result<(), Fail> {
    let text = chain(rt.alloc(), 2000)?;
    assert!(rt; is_refused(rt.alloc(), text.as_bytes(), b"refused,t,nodes,2000\n")?);
    Ok(())
}

#[test]
fn a_link_more_than_eight_thousand_is_refused(rt: HostRuntime) -> Result<(), Fail> {
    let text = pairs(rt.alloc(), 127)?;
    assert!(rt; is_refused(rt.alloc(), text.as_bytes(), b"refused,t,links,8001\n")?);
    Ok(())
}

#[test]
fn a_byte_more_than_the_limit_is_refused(rt: HostRuntime) -> Result<(), Fail> {
    let text = vec![in rt.alloc(); b'x'; 4_194_305]?;
    assert!(rt; is_refused(rt.alloc(), &text, b"refused,t,long,4194304\n")?);
    Ok(())
}

const SHAPELESS: [&[&str]; 9] = [
    &[],
    &["plan"],
    &["plot", "t"],
    &["plan", "--x", "t"],
    &["plan", "t", "--header"],
    &["judge", "t"],
    &["drill", "01", "3", "3"],
    &["drill", "1", "3", "4"],
    &["drill", "--header", "1", "3", "3"],
];

#[test]
fn words_without_a_shape_are_usage(rt: HostRuntime) -> Result<(), Fail> {
    for words in SHAPELESS {
        assert!(rt; ends_so(rt.alloc(), words, &[("t", TWO_LINKS)], Status::Usage, b"")?);
    }
    Ok(())
}

#[test]
fn a_file_that_is_missing_is_a_read_fault(rt: HostRuntime) -> Result<(), Fail> {
    let files = [("t", TWO_LINKS)];
    assert!(rt; ends_so(rt.alloc(), &["plan", "u"], &files, Status::ReadFault, b"")?);
    Ok(())
}

#[test]
fn a_write_that_fails_leaves_what_was_written(rt: HostRuntime) -> Result<(), Fail> {
    let words = words_of(rt.alloc(), &["plan", "t"])?;
    let mut shelf = shelf_of(rt.alloc(), &[("t", TWO_LINKS)])?;
    let mut sink = MemSink::new(rt.alloc(), 1000, 10)?;
    sink.fail_at(2)?;
    assert!(rt; tomo(rt.alloc(), &words, &mut shelf, &mut sink) == Status::WriteFault);
    assert!(rt; sink.bytes() == b"plan,2\nnod".as_slice());
    Ok(())
}

#[test]
fn a_plan_cut_short_is_refused(rt: HostRuntime) -> Result<(), Fail> {
    let short = TWO_LINKS_PLAN.len().saturating_sub(4);
    let table: [Told<'_>; 1] = [(
        [TWO_LINKS, &TWO_LINKS_PLAN[..short]],
        Status::BadInput,
        b"refused,f,missing,16\n",
    )];
    assert!(rt; all_end_so(rt.alloc(), "check", &table)?);
    Ok(())
}
