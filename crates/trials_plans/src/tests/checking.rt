// Plans are checked where memory is ample.
ghost use Rattle.std.specs.Prelude.{◌<◌, ◌^◌, length};

use crate::tests::small::topology_of;
use cert_check::{Fault, Report, check};
use drop_place::place;
use plan_form::read_plan;
use planner::{make_plan, plan_for};
use rows::read_rows;
use samples::{TRIANGLES, TWO_LINKS, TWO_LINKS_PLAN, with_row};
use std::alloc::Global;
use std::test::Fail;
use tomo_base::NoMemory;
use topology::Topology;

// What the plan of two triangles joined by a link comes to for the topology with these rows.
fn report_of(alloc: Global, text: &[u8]) -> Result<Report, Fail>
    requires { length text.now < 2 ^ 31 }
{
    let joined = topology_of(alloc, TRIANGLES)?;
    let plan = make_plan(alloc, &joined)?;
    let topology = topology_of(alloc, text)?;
    Ok(check(alloc, &topology, &plan)?)
}

#[test]
fn a_plan_is_good_for_its_topology(rt: HostRuntime) -> Result<(), Fail> {
    let report = report_of(rt.alloc(), TRIANGLES)?;
    let good = Report::Good {
        monitors: 4,
        bound: 4,
    };
    assert!(rt; report == good);
    Ok(())
}

#[test]
fn it_has_other_names_than_another(rt: HostRuntime) -> Result<(), Fail> {
    let report = report_of(rt.alloc(), b"a,b\na,c\nb,c\nc,d\nd,e\nd,f\ne,f\nf,g\n")?;
    assert!(rt; report == Report::Bad(Fault::Names(6)));
    Ok(())
}

#[test]
fn it_has_other_links_than_another(rt: HostRuntime) -> Result<(), Fail> {
    let report = report_of(rt.alloc(), b"a,b\na,c\nb,c\nc,d\nd,e\nd,f\nc,f\n")?;
    assert!(rt; report == Report::Bad(Fault::Links(6)));
    Ok(())
}

// What the plan in a short text comes to for the topology of two links, if it is a plan.
fn report_of_text(alloc: Global, text: &[u8]) -> Result<Option<Report>, Fail>
    requires { length text.now < 10000 }
{
    rows::laws::fields_are_no_longer_than_their_text();
    let rows = read_rows(alloc, text)?;
    let topology = topology_of(alloc, TWO_LINKS)?;
    match read_plan(alloc, &rows) {
        Ok(plan) => Ok(Some(check(alloc, &topology, &plan)?)),
        Err(_) => Ok(None),
    }
}

const GOOD: Report = Report::Good {
    monitors: 3,
    bound: 3,
};

#[test]
fn one_changed_row_is_a_fault(rt: HostRuntime) -> Result<(), Fail> {
    let alloc = rt.alloc();
    for (number, row, report) in [
        (0, b"".as_slice(), GOOD),
        (8, b"monitor,0", Report::Bad(Fault::Monitor(1))),
        (9, b"monitor,3", Report::Bad(Fault::Monitor(2))),
        (11, b"pocket,1,2,1", Report::Bad(Fault::Pocket(1))),
        (12, b"pocket,2,1,1", Report::Bad(Fault::Pocket(2))),
        (13, b"path,0,0 2", Report::Bad(Fault::Path(0))),
        (14, b"path,1,2 1", Report::Bad(Fault::Path(1))),
        (14, b"path,1,0 1", Report::Bad(Fault::Path(1))),
        (15, b"recipe,0,2:1", Report::Bad(Fault::Recipe(0))),
        (16, b"recipe,1,2:2", Report::Bad(Fault::Recipe(1))),
    ] {
        let text = with_row(alloc, TWO_LINKS_PLAN, number, row)?;
        assert!(rt; text.len() < 10_000);
        assert!(rt; report_of_text(alloc, &text)? == Some(report));
    }
    Ok(())
}

// The text of a plan of format 2 of two links, with these rows for the choice, the monitors and the pockets.
fn chosen_text(
    alloc: Global,
    choice: &[u8],
    monitors: &[u8],
    pockets: &[u8],
) -> Result<Vec<u8>, NoMemory> {
    let mut text = Vec::new(alloc);
    for part in [
        b"plan,2\nnode,0,a\nnode,1,b\nnode,2,c\nlink,0,0,1\nlink,1,1,2\n".as_slice(),
        choice,
        monitors,
        pockets,
        b"path,0,0 1\npath,1,1 2\nrecipe,0,2:0\nrecipe,1,2:1\nend\n",
    ] {
        text.extend_from_slice(part)?;
    }
    Ok(text)
}

const ALL: &[u8] = b"monitor,0\nmonitor,1\nmonitor,2\n";

const ENDS: &[u8] = b"monitor,0\nmonitor,2\n";

const POCKETS: &[u8] = b"pocket,0,1,0\npocket,1,1,2\n";

#[test]
fn forced_and_barred_nodes_are_checked(rt: HostRuntime) -> Result<(), Fail> {
    let alloc = rt.alloc();
    for (choice, monitors, report) in [
        (b"must,1\n".as_slice(), ALL, GOOD),
        (b"must,0\nmust,1\n", ALL, Report::Bad(Fault::Pocket(0))),
        (b"must,1\nmust,1\n", ALL, Report::Bad(Fault::Must(1))),
        (b"must,3\n", ALL, Report::Bad(Fault::Must(0))),
        (b"must,1\n", ENDS, Report::Bad(Fault::Must(0))),
        (b"not,3\n", ALL, Report::Bad(Fault::Not(0))),
        (b"must,1\nnot,1\n", ALL, Report::Bad(Fault::Not(0))),
        (b"not,1\nnot,1\n", ENDS, Report::Bad(Fault::Not(1))),
        (b"not,1\n", ENDS, Report::Bad(Fault::Path(0))),
    ] {
        let text = chosen_text(alloc, choice, monitors, POCKETS)?;
        assert!(rt; text.len() < 10_000);
        assert!(rt; report_of_text(alloc, &text)? == Some(report));
    }
    Ok(())
}

// The rows of a grid of 30 by 30 nodes, numbered row after row.
fn grid(alloc: Global) -> Result<String, Fail> {
    let mut text = String::new(alloc);
    for v in 0..900 {
        if v % 30 < 29 {
            text.push_str(&format!(in alloc; "{v},{}\n", v + 1)?)?;
        }
        if v < 870 {
            text.push_str(&format!(in alloc; "{v},{}\n", v + 30)?)?;
        }
    }
    Ok(text)
}

// The rows of a graph of 40 nodes, each two of which are linked.
fn complete(alloc: Global) -> Result<String, Fail> {
    let mut text = String::new(alloc);
    for high in 0..40 {
        for low in 0..high {
            text.push_str(&format!(in alloc; "{low},{high}\n")?)?;
        }
    }
    Ok(text)
}

// What the plan for the lowest set of monitors comes to.
fn report_of_lowest(alloc: Global, t: &Topology) -> Result<Report, Fail> {
    let monitors = place(alloc, t.graph())?;
    let plan = plan_for(alloc, t, &monitors)?;
    Ok(check(alloc, t, &plan)?)
}

// Of a grid's nodes only the four corners have two neighbours, and of a complete graph's nodes any three serve.
#[test]
fn plans_of_large_graphs_are_good(rt: HostRuntime) -> Result<(), Fail> {
    let alloc = rt.alloc();
    for (text, monitors) in [(grid(alloc)?, 4), (complete(alloc)?, 3)] {
        assert!(rt; text.len() < 100_000);
        let topology = topology_of(alloc, text.as_bytes())?;
        let good = Report::Good { monitors, bound: 0 };
        assert!(rt; report_of_lowest(alloc, &topology)? == good);
    }
    Ok(())
}
