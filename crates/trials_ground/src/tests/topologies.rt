use rows::read_rows;
use std::alloc::Global;
use std::test::Fail;
use tomo_base::{Graph, Link, first_apart};
use topology::{
    ChoiceFault, MonFault, TopoFault, Topology, read_choice, read_monitors, read_topology,
};

// A field of 64 bytes, and one more.
const LONG: &[u8] = b"0123456789012345678901234567890123456789012345678901234567890123,b\nb,c\n";

const TOO_LONG: &[u8] =
    b"01234567890123456789012345678901234567890123456789012345678901234,b\nb,c\n";

#[test]
fn topologies_are_read(rt: HostRuntime) -> Result<(), Fail> {
    let alloc = rt.alloc();
    for (what, text, header, names, links) in [
        (
            "a triangle",
            b"a,b\nb,c\nc,a\n".as_slice(),
            false,
            ["a", "b", "c"].as_slice(),
            3,
        ),
        (
            "both directions, a blank line and further fields",
            b"a,b\nb,a\n\nb,c,12\nc,b,a\n",
            false,
            &["a", "b", "c"],
            2,
        ),
        (
            "a header and blanks",
            b"from,from\n a\t,b c\n\"b c \",d\n",
            true,
            &["a", "b c", "d"],
            2,
        ),
        (
            "a name of 64 bytes",
            LONG,
            false,
            &[
                "0123456789012345678901234567890123456789012345678901234567890123",
                "b",
                "c",
            ],
            2,
        ),
    ] {
        assert!(rt; text.len() < 100);
        let rows = read_rows(alloc, text)?;
        let t = read_topology(alloc, &rows, header)?;
        assert_eq!(rt; t.graph().links().len(), links, "{what}");
        let mut read = Vec::new(alloc);
        for v in 0..t.graph().nodes() {
            assert_eq!(rt; t.find(t.name(v)), Some(v), "{what}");
            read.push(t.name(v))?;
        }
        assert_eq!(rt; read.as_slice(), names, "{what}");
        assert_eq!(rt; t.find("from"), None, "{what}");
    }
    Ok(())
}

// Texts without a header that name no topology, and the first fault of each.
const FAULTS: [(&[u8], TopoFault); 10] = [
    (b"", TopoFault::Few(0)),
    (b"a,b\nb,a\n", TopoFault::Few(2)),
    (b"a\n", TopoFault::Width(1)),
    (b"a,b\nb, \t\n", TopoFault::Name(2)),
    (b",\n", TopoFault::Name(1)),
    (b"a,\xc3\n", TopoFault::Name(1)),
    (TOO_LONG, TopoFault::Name(1)),
    (b"a,b\nc, c\n", TopoFault::Loop(2)),
    (b"a,b\nc,d\nd,d\n", TopoFault::Loop(3)),
    (b"a,b\nc,d\nb,e\n", TopoFault::Apart(2)),
];

// The fault of a text of fewer than a hundred bytes, if it has one.
fn fault_of(alloc: Global, text: &[u8], header: bool) -> Result<Option<TopoFault>, Fail> {
    if text.len() >= 100 {
        return Ok(None);
    }
    let rows = read_rows(alloc, text)?;
    Ok(read_topology(alloc, &rows, header).err())
}

#[test]
fn the_first_fault_is_answered(rt: HostRuntime) -> Result<(), Fail> {
    for (text, fault) in FAULTS {
        assert_eq!(rt; fault_of(rt.alloc(), text, false)?, Some(fault));
    }
    Ok(())
}

#[test]
fn a_header_is_counted_and_not_examined(rt: HostRuntime) -> Result<(), Fail> {
    let width = fault_of(rt.alloc(), b"x\na,b\na\n", true)?;
    assert!(rt; width == Some(TopoFault::Width(3)));
    let ends = fault_of(rt.alloc(), b"a,a\na,b\nc,c\n", true)?;
    assert!(rt; ends == Some(TopoFault::Loop(3)));
    Ok(())
}

// The pairs of the first `count` numbers, lower first, each as a row.
fn pairs(alloc: Global, count: u32) -> Result<String, Fail> {
    let mut text = String::new(alloc);
    for high in 0..count {
        for low in 0..high {
            text.push_str(&format!(in alloc; "{low},{high}\n")?)?;
        }
    }
    Ok(text)
}

// The rows of a chain of nodes, each linked to the next.
fn chain(alloc: Global, links: u32) -> Result<String, Fail> {
    let mut text = String::new(alloc);
    for low in 0..links {
        text.push_str(&format!(in alloc; "n{low},n{}\n", u64::from(low) + 1)?)?;
    }
    Ok(text)
}

#[test]
fn limits_are_kept(rt: HostRuntime) -> Result<(), Fail> {
    let alloc = rt.alloc();
    for (text, fault) in [
        (chain(alloc, 1_999)?, None),
        (chain(alloc, 2_000)?, Some(TopoFault::Nodes(2_000))),
        (pairs(alloc, 126)?, None),
        (pairs(alloc, 127)?, Some(TopoFault::Links(8_001))),
    ] {
        assert!(rt; text.len() < 100_000);
        let rows = read_rows(alloc, text.as_bytes())?;
        assert!(rt; read_topology(alloc, &rows, false).err() == fault);
    }
    Ok(())
}

#[test]
fn monitors_of_a_star_are_read(rt: HostRuntime) -> Result<(), Fail> {
    let alloc = rt.alloc();
    let t = read_topology(alloc, &read_rows(alloc, b"c,x\nc,y\nc,z\n")?, false)?;
    for (text, nodes) in [
        (b"x\ny\nz\n".as_slice(), [1, 2, 3].as_slice()),
        (b"x\ny\n", &[1, 2]),
        (b"", &[]),
        (b"z\n z\t,c\nx\n", &[1, 3]),
    ] {
        assert!(rt; text.len() < 100);
        let monitors = read_monitors(alloc, &t, &read_rows(alloc, text)?)?;
        assert!(rt; monitors.as_slice() == nodes);
    }
    for (text, row) in [
        (b"q\n".as_slice(), 1),
        (b"x\nx y\nq\n", 2),
        (b"x\n\xff\n", 2),
    ] {
        assert!(rt; text.len() < 100);
        let refused = read_monitors(alloc, &t, &read_rows(alloc, text)?);
        assert!(rt; refused.err() == Some(MonFault::Unknown(row)));
    }
    Ok(())
}

#[test]
fn a_choice_of_a_star_is_read(rt: HostRuntime) -> Result<(), Fail> {
    let alloc = rt.alloc();
    let t = read_topology(alloc, &read_rows(alloc, b"c,x\nc,y\nc,z\n")?, false)?;
    let rows = read_rows(alloc, b"not,z\n must ,\tx,q\nmust,c\nmust,x\n")?;
    let choice = read_choice(alloc, &t, &rows)?;
    assert!(rt; choice.must.as_slice() == [0, 1].as_slice());
    assert!(rt; choice.not.as_slice() == [3].as_slice());
    for (text, fault) in [
        (b"must\n".as_slice(), ChoiceFault::Width(1)),
        (b"must,x\n Must,y\n", ChoiceFault::Word(2)),
        (b"not,q\nmust\n", ChoiceFault::Unknown(1)),
        (b"not,x\nnot,y\nmust,y\n", ChoiceFault::Clash(3)),
    ] {
        assert!(rt; text.len() < 100);
        let refused = read_choice(alloc, &t, &read_rows(alloc, text)?);
        assert!(rt; refused.err() == Some(fault));
    }
    Ok(())
}

#[test]
fn nodes_of_a_chain_are_named_by_their_numbers(rt: HostRuntime) -> Result<(), Fail> {
    let alloc = rt.alloc();
    let mut links = Vec::new(alloc);
    for a in 0..11 {
        links.push(Link { a, b: a + 1 })?;
    }
    assert!(rt; links.len() < 100);
    let g = Graph::new(alloc, 12, &links).expect(&rt, "no graph");
    let apart = first_apart(alloc, &g)?;
    assert!(rt; apart.is_none());
    let t = Topology::numbered(alloc, g).ok().expect(&rt, "no memory");
    assert!(rt; t.graph().links().len() == 11);
    assert!(rt; t.graph().nodes() == 12);
    assert!(rt; (t.name(0), t.name(9), t.name(11)) == ("0", "9", "11"));
    assert!(rt; (t.find("10"), t.find("12")) == (Some(10), None));
    Ok(())
}
