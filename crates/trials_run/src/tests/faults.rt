// Each call of a device fails once: how the run ends, and what is written.
use crate::tests::stage::{shelf_of, words_of};
use outside::MemSink;
use samples::{STAR, STAR_PLAN, TWO_LINKS, TWO_LINKS_PLAN};
use std::alloc::Global;
use std::test::Fail;
use tomo_run::{Status, tomo};

// How `plan` over two links ends with a sink of this room that takes a byte at a time, where the write with this number fails, and what
// the sink holds.
fn plan_into(alloc: Global, room: u32, failing: u32) -> Result<(Status, MemSink), Fail> {
    let words = words_of(alloc, &["plan", "t"])?;
    let mut shelf = shelf_of(alloc, &[("t", TWO_LINKS)])?;
    let mut sink = MemSink::new(alloc, room, 1)?;
    sink.fail_at(failing)?;
    let status = tomo(alloc, &words, &mut shelf, &mut sink);
    Ok((status, sink))
}

// Whether the sink holds so many bytes, the first of the plan of two links.
fn holds_first(sink: &MemSink, count: u32) -> bool {
    sink.bytes().len() == count as usize && TWO_LINKS_PLAN.starts_with(sink.bytes())
}

#[test]
fn each_write_may_fail(rt: HostRuntime) -> Result<(), Fail> {
    for before in 0..177u32 {
        let (status, sink) = plan_into(rt.alloc(), 177, before + 1)?;
        assert!(rt; status == Status::WriteFault);
        assert!(rt; holds_first(&sink, before));
    }
    Ok(())
}

#[test]
fn no_write_is_made_after_the_last_byte(rt: HostRuntime) -> Result<(), Fail> {
    let (status, sink) = plan_into(rt.alloc(), 177, 178)?;
    assert!(rt; status == Status::Done);
    assert!(rt; sink.bytes() == TWO_LINKS_PLAN);
    Ok(())
}

#[test]
fn room_may_end_at_each_byte(rt: HostRuntime) -> Result<(), Fail> {
    for room in 0..177u32 {
        let (status, sink) = plan_into(rt.alloc(), room, 1000)?;
        assert!(rt; status == Status::WriteFault);
        assert!(rt; holds_first(&sink, room));
    }
    Ok(())
}

// How `solve` ends over a topology, the plan of a star and a round, where the read with this number fails, and what is written.
fn solve_from(alloc: Global, topology: &[u8], failing: u32) -> Result<(Status, MemSink), Fail> {
    let words = words_of(alloc, &["solve", "t", "p", "r"])?;
    let files = [
        ("t", topology),
        ("p", STAR_PLAN),
        ("r", b"5,6,7\n".as_slice()),
    ];
    let mut shelf = shelf_of(alloc, &files)?;
    shelf.fail_at(failing)?;
    let mut sink = MemSink::new(alloc, 1000, 1000)?;
    let status = tomo(alloc, &words, &mut shelf, &mut sink);
    Ok((status, sink))
}

#[test]
fn each_read_may_fail(rt: HostRuntime) -> Result<(), Fail> {
    for failing in 1..4u32 {
        let (status, sink) = solve_from(rt.alloc(), STAR, failing)?;
        assert!(rt; status == Status::ReadFault);
        assert!(rt; sink.bytes().is_empty());
    }
    Ok(())
}

// A round over a star as `solve` prints it.
const SOLVED: &[u8] = b"link,0,c,x\nlink,1,c,y\nlink,2,c,z\nround,0,ok,2,3,4\nend,1,0\n";

#[test]
fn no_fourth_read_is_made(rt: HostRuntime) -> Result<(), Fail> {
    let (status, sink) = solve_from(rt.alloc(), STAR, 4)?;
    assert!(rt; status == Status::Done);
    assert!(rt; sink.bytes() == SOLVED);
    Ok(())
}

#[test]
fn a_refused_topology_is_the_last_file_read(rt: HostRuntime) -> Result<(), Fail> {
    let (status, sink) = solve_from(rt.alloc(), b"a,a\n", 2)?;
    assert!(rt; status == Status::BadInput);
    assert!(rt; sink.bytes() == b"refused,t,loop,1\n".as_slice());
    Ok(())
}
