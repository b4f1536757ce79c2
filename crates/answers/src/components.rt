// The parts of a network are told.
ghost use Rattle.std.specs.Prelude.{ℕ, ◌≡◌, ◌≤◌, ◌<◌, ◌+◌, ◌^◌, [], length, map, IfOk, OnOk};
ghost use Rattle.plan_form.specs.PlanRows.{AddsRows, AddsEach, node_row};
ghost use Rattle.answers.specs.Components.{cut_row, block_row, three_row, AreHomes, TellsParts};

use crate::answer::Answer;
use crate::parts::{all_three_blocks, homes};
use crate::status::Status;
use blocks::blocks;
use itoa::Buffer;
use plan_form::{add_counted, add_list, add_numbered, add_row, numbers_joined};
use rows::Rows;
use std::alloc::Global;
use tomo_base::{NoMemory, NodeSets};
use topology::Topology;

// Adds a row for each node.
fn add_nodes(rows: &mut Rows, topology: &Topology) -> Result<(), NoMemory>
    requires none { rows.old.current ≡ [] }
    requires room { length rows.old.closed + length topology.now.names < 2 ^ 32 }
    ensures { OnOk result (AddsEach node_row topology.now.names rows.old rows.new) }
{
    for v in 0..topology.graph().nodes() {
        add_numbered(rows, "node", v, topology.name(v).as_bytes())?;
    }
    Ok(())
}

// Adds a row for each cut vertex.
fn add_cuts(rows: &mut Rows, cuts: &[u32]) -> Result<(), NoMemory>
    requires none { rows.old.current ≡ [] }
    requires room { length rows.old.closed + length cuts.now < 2 ^ 32 }
    ensures rows { OnOk result (AddsRows rows.old rows.new (map cut_row cuts.now)) }
    ensures count { OnOk result (length rows.new.closed ≡ length rows.old.closed + length cuts.now) }
{
    for v in cuts {
        let mut node = Buffer::new();
        add_row(rows, &["cut".as_bytes(), node.format(*v).as_bytes()])?;
    }
    Ok(())
}

// Adds a row for each block; `text` is room for the nodes.
fn add_blocks(rows: &mut Rows, blocks: &NodeSets, text: &mut Vec<u8>) -> Result<(), NoMemory>
    requires none { rows.old.current ≡ [] }
    requires room { length rows.old.closed + length blocks.now < 2 ^ 32 }
    ensures { OnOk result (AddsEach block_row blocks.now rows.old rows.new) }
{
    for i in 0..blocks.len() {
        add_list(rows, "block", i, blocks.at(i).as_slice(), text)?;
    }
    Ok(())
}

// Adds a row for each three-block, with the number of its block; `text` is room for the nodes.
fn add_three_blocks(
    rows: &mut Rows,
    sets: &NodeSets,
    homes: &[u32],
    text: &mut Vec<u8>,
) -> Result<(), NoMemory>
    requires none { rows.old.current ≡ [] }
    requires homes { length homes.now ≡ length sets.now }
    requires room { length rows.old.closed + length sets.now < 2 ^ 32 }
    ensures { OnOk result (AddsEach (three_row homes.now) sets.now rows.old rows.new) }
{
    for i in 0..sets.len() {
        text.clear();
        numbers_joined(sets.at(i).as_slice(), text)?;
        add_counted(rows, "three", i, homes[i as usize], text)?;
    }
    Ok(())
}

/// Tells the cut vertices, the blocks and the three-blocks of a network, each kind in its order.
pub fn tell_components(alloc: Global, topology: &Topology) -> Result<Answer, NoMemory>
    ensures { IfOk result (λ a. TellsParts topology.now a.status a.rows.closed) }
{
    let g = topology.graph();
    let parts = blocks(alloc, g)?;
    let three_blocks = all_three_blocks(alloc, g, parts.list())?;
    let homes = homes(alloc, parts.list(), &three_blocks)?;
    let mut rows = Rows::new(alloc);
    let mut text = Vec::new(alloc);
    add_nodes(&mut rows, topology)?;
    add_cuts(&mut rows, parts.cuts().as_slice())?;
    add_blocks(&mut rows, parts.list(), &mut text)?;
    add_three_blocks(&mut rows, &three_blocks, &homes, &mut text)?;
    add_row(&mut rows, &["end".as_bytes()])?;
    Ok(Answer {
        status: Status::Done,
        rows,
    })
}
