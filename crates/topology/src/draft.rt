// What the rows so far name, while rows are read one by one.
ghost use Rattle.std.specs.Prelude.{◌+◌, ◌^◌, ◌<◌, ◌≤◌, [], length, IfOk, IfErr, OnOk};
ghost use Rattle.tomo_base.specs.Limits.{node_limit};
ghost use Rattle.topology.specs.Draft.{IsDraftOf, LinksNames, HasOwnFault, TakesRow, RefusesRow, IsOfRow};
ghost use Rattle.topology.specs.Faults.{AllFine, IsTopoFault, examined};
ghost use Rattle.topology.specs.Names.{row_at};

use crate::faults::TopoFault;
use crate::fields::name_in;
use crate::links::Links;
use crate::names::Names;
use rows::Rows;
use std::alloc::Global;
use tomo_base::{LINK_LIMIT, NODE_LIMIT};

/// The names and the links of the rows so far.
#[derive(Drop)]
pub(crate) struct Draft {
    pub(crate) names: Names,
    pub(crate) links: Links,
}

// The names in the first two fields of a row, or the fault that they have without the rows before.
fn linked_names<'a>(rows: &'a Rows, place: u32) -> Result<(&'a str, &'a str), TopoFault>
    requires place { place < length rows.now.closed }
    requires number { place + 1 < 2 ^ 32 }
    ensures names { IfOk result (λ p. LinksNames (row_at rows.now.closed place) p.0.now p.1.now) }
    ensures fault { IfErr result (HasOwnFault rows.now.closed place) }
{
    let row = place + 1;
    if rows.width(place) < 2 {
        return Err(TopoFault::Width(row));
    }
    let Some(first) = name_in(rows.at(place, 0)) else {
        return Err(TopoFault::Name(row));
    };
    let Some(second) = name_in(rows.at(place, 1)) else {
        return Err(TopoFault::Name(row));
    };
    if first == second {
        return Err(TopoFault::Loop(row));
    }
    Ok((first, second))
}

impl Draft {
    // The draft of no rows.
    fn new(alloc: Global) -> Draft
        ensures { IsDraftOf [] result.names result.links }
    {
        Draft {
            names: Names::new(alloc),
            links: Links::new(alloc),
        }
    }

    // Adds what one row names.
    fn add_row(&mut self, alloc: Global, rows: &Rows, place: u32) -> Result<(), TopoFault>
        requires place { place < length rows.now.closed }
        requires number { place + 1 < 2 ^ 32 }
        requires few { length self.old.names ≤ node_limit }
        ensures takes { OnOk result (TakesRow rows.now.closed place
            self.old.names self.old.links self.new.names self.new.links) }
        ensures refuses { IfErr result (RefusesRow rows.now.closed place
            self.old.names self.old.links) }
    {
        let (first, second) = linked_names(rows, place)?;
        let a = self.names.number(alloc, first)?;
        let b = self.names.number(alloc, second)?;
        if self.names.len() > NODE_LIMIT {
            return Err(TopoFault::Nodes(place + 1));
        }
        self.links.add(a, b)?;
        if self.links.len() > LINK_LIMIT {
            return Err(TopoFault::Links(place + 1));
        }
        Ok(())
    }
}

/// What all the rows name, or the fault of the first row that has one. With a header, the first row
/// is not examined.
pub(crate) fn draft_of(alloc: Global, rows: &Rows, header: bool) -> Result<Draft, TopoFault>
    ensures draft { IfOk result (λ draft.
        IsDraftOf (examined header rows.now.closed) draft.names draft.links) }
    ensures fine { OnOk result (AllFine header rows.now.closed (length rows.now.closed)) }
    ensures fault { IfErr result (IsTopoFault header rows.now.closed) }
    ensures of_row { IfErr result IsOfRow }
{
    let mut draft = Draft::new(alloc);
    let start = if header { 1 } else { 0 };
    for place in start..rows.len() {
        draft.add_row(alloc, rows, place)?;
    }
    Ok(draft)
}
