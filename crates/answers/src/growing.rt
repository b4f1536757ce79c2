// Independent trees are told.
ghost use Rattle.std.specs.Prelude.{◌≡◌, ◌≤◌, ◌<◌, ◌+◌, ◌^◌, ◌∷◌, [], length, IfOk, OnOk};
ghost use Rattle.tomo_base.specs.Sets.{has};
ghost use Rattle.plan_form.specs.PlanRows.{AddsRows, numbered};
ghost use Rattle.indep_trees.specs.Trees.{IsFree};
ghost use Rattle.answers.specs.Growing.{root_row, tree_row, grown_row, TellsTrees};

use crate::answer::Answer;
use crate::status::Status;
use indep_trees::{IndepTrees, trees};
use itoa::Buffer;
use mmp_place::mmp;
use plan_form::add_row;
use rows::Rows;
use std::alloc::Global;
use tomo_base::{NoMemory, NodeSet};
use topology::Topology;

// Adds the row of a monitor.
fn add_root(rows: &mut Rows, t: &IndepTrees, v: u32) -> Result<(), NoMemory>
    requires none { rows.old.current ≡ [] }
    requires room { length rows.old.closed + 1 < 2 ^ 32 }
    requires node { v < t.now.graph.nodes }
    ensures { OnOk result (AddsRows rows.old rows.new (root_row t.now v ∷ [])) }
{
    let (mut node, mut number) = (Buffer::new(), Buffer::new());
    add_row(
        rows,
        &[
            "monitor".as_bytes(),
            node.format(v).as_bytes(),
            number.format(t.number(v)).as_bytes(),
        ],
    )
}

// Adds the row of a node that is no monitor.
fn add_tree(rows: &mut Rows, t: &IndepTrees, v: u32) -> Result<(), NoMemory>
    requires none { rows.old.current ≡ [] }
    requires room { length rows.old.closed + 1 < 2 ^ 32 }
    requires free { IsFree t.now.graph (has t.now.monitors) v }
    ensures { OnOk result (AddsRows rows.old rows.new (tree_row t.now v ∷ [])) }
{
    let (mut node, mut number) = (Buffer::new(), Buffer::new());
    let (mut first, mut second, mut third) = (Buffer::new(), Buffer::new(), Buffer::new());
    add_row(
        rows,
        &[
            "tree".as_bytes(),
            node.format(v).as_bytes(),
            number.format(t.number(v)).as_bytes(),
            first.format(t.parent(0, v)).as_bytes(),
            second.format(t.parent(1, v)).as_bytes(),
            third.format(t.parent(2, v)).as_bytes(),
        ],
    )
}

// Adds the row of a node.
fn add_node(rows: &mut Rows, t: &IndepTrees, monitors: &NodeSet, v: u32) -> Result<(), NoMemory>
    requires none { rows.old.current ≡ [] }
    requires room { length rows.old.closed + 1 < 2 ^ 32 }
    requires monitors { t.now.monitors ≡ monitors.now }
    requires node { v < t.now.graph.nodes }
    ensures { OnOk result (AddsRows rows.old rows.new (grown_row t.now v [] ∷ [])) }
{
    if monitors.has(v) {
        add_root(rows, t, v)
    } else {
        add_tree(rows, t, v)
    }
}

// Adds the row of each node.
fn add_nodes(
    rows: &mut Rows,
    topology: &Topology,
    t: &IndepTrees,
    monitors: &NodeSet,
) -> Result<(), NoMemory>
    requires none { rows.old.current ≡ [] }
    requires graph { t.now.graph ≡ topology.now.graph }
    requires room { length rows.old.closed + length topology.now.names < 2 ^ 32 }
    requires monitors { t.now.monitors ≡ monitors.now }
    ensures rows { OnOk result (AddsRows rows.old rows.new (numbered (grown_row t.now) 0 topology.now.names)) }
    ensures count { OnOk result (length rows.new.closed ≡ length rows.old.closed + length topology.now.names) }
{
    for v in 0..topology.graph().nodes() {
        add_node(rows, t, monitors, v)?;
    }
    Ok(())
}

/// Tells three independent trees for the lowest set of a network.
pub fn tell_trees(alloc: Global, topology: &Topology) -> Result<Answer, NoMemory>
    ensures { IfOk result (λ a. TellsTrees topology.now a.status a.rows.closed) }
{
    let g = topology.graph();
    let monitors = mmp(alloc, g)?;
    let t = trees(alloc, g, &monitors)?;
    let mut rows = Rows::new(alloc);
    add_nodes(&mut rows, topology, &t, &monitors)?;
    add_row(&mut rows, &["end".as_bytes()])?;
    Ok(Answer {
        status: Status::Done,
        rows,
    })
}
