// A plan of rows.
ghost use Rattle.std.specs.Prelude.{◌≡◌, ◌+◌, ◌<◌, ◌^◌, length, IfOk, IfErr, OnOk};
ghost use Rattle.rows.specs.Rows.{byte_count};
ghost use Rattle.topology.specs.Names.{row_at};
ghost use Rattle.plan_form.specs.Parts.{IsWellFormed};
ghost use Rattle.plan_form.specs.PlanRows.{AreRowsOf, row_count};
ghost use Rattle.plan_form.specs.Reading.{IsFirstPlanFault};
ghost use Rattle.plan_form.specs.Taking.{no_parts, told_items, HasRoom, IsRecordAt, TakesItem, RefusesItem, IsNextKind, RefusesKind};

use crate::adding::{add_link, add_name, add_node, add_path, add_pocket, add_recipe};
use crate::faults::PlanFault;
use crate::kinds::{Kind, format_of, is_end, kind_of, may_follow};
use crate::plan::Plan;
use rows::Rows;
use simple_path::{PathPool, Recipes};
use std::alloc::Global;
use tomo_base::Words;

// The kind of a row that comes after one of the kind `last`, in a format.
fn next_kind(rows: &Rows, row: u32, format: u32, last: Option<Kind>) -> Result<Kind, PlanFault>
    requires row { row < length rows.now.closed }
    requires filled { 0 < length (row_at rows.now.closed row) }
    requires number { row + 1 < 2 ^ 32 }
    ensures kind { IfOk result (IsNextKind format last (row_at rows.now.closed row)) }
    ensures fault { IfErr result (RefusesKind format last (row + 1) (row_at rows.now.closed row)) }
{
    if is_end(last) {
        return Err(PlanFault::After(row + 1));
    }
    let Some(kind) = kind_of(rows, row, format) else {
        return Err(PlanFault::Record(row + 1));
    };
    if may_follow(last, kind) {
        Ok(kind)
    } else {
        Err(PlanFault::Order(row + 1))
    }
}

impl Plan {
    // A plan without any part.
    fn empty(alloc: Global) -> Plan
        ensures { result ≡ no_parts }
    {
        Plan {
            names: Words::new(alloc),
            links: Vec::new(alloc),
            forced: Vec::new(alloc),
            barred: Vec::new(alloc),
            monitors: Vec::new(alloc),
            pockets: Vec::new(alloc),
            paths: PathPool::new(alloc),
            recipes: Recipes::new(alloc),
        }
    }

    // Adds what a row of a kind tells; `room` is room for a list of nodes.
    fn add_row(
        &mut self,
        alloc: Global,
        rows: &Rows,
        row: u32,
        kind: Kind,
        room: &mut Vec<u32>,
    ) -> Result<(), PlanFault>
        requires at { IsRecordAt kind rows.now.closed row }
        requires room { HasRoom (row_at rows.now.closed row) self.old }
        ensures takes { OnOk result (TakesItem kind (row_at rows.now.closed row) self.old self.new) }
        ensures refuses { IfErr result (RefusesItem kind (length (told_items self.old kind)) (row + 1) (row_at rows.now.closed row)) }
    {
        match kind {
            Kind::Plan => Ok(()),
            Kind::Node => add_name(&mut self.names, rows, row),
            Kind::Link => add_link(&mut self.links, rows, row),
            Kind::Must => add_node(&mut self.forced, rows, row),
            Kind::Not => add_node(&mut self.barred, rows, row),
            Kind::Monitor => add_node(&mut self.monitors, rows, row),
            Kind::Pocket => add_pocket(alloc, &mut self.pockets, rows, row, room),
            Kind::Path => add_path(&mut self.paths, rows, row, room),
            Kind::Recipe => add_recipe(alloc, &mut self.recipes, rows, row),
            Kind::End => Ok(()),
        }
    }
}

/// Reads the plan that rows are, row after row.
///
/// The first row tells the format: the newest, as `plan_rows` spells it, or the older one, which has no rows for forced and barred
/// nodes. The rows are those of the table of kinds, in its order, each spelled in one way, so the rows of the plan that is answered are
/// these. The parts of the plan are otherwise unchecked: a link may join any two numbers.
///
/// The fault of the first row that has one is answered, and in one row the first that applies of `After`, `Record`, `Order` for a
/// kind that may not stand there, `Number`, and `Order` for a row's own number. `Missing` comes where no row has a fault. The rows
/// are read once, in time linear in their bytes.
pub fn read_plan(alloc: Global, rows: &Rows) -> Result<Plan, PlanFault>
    requires { byte_count rows.now.closed < 2 ^ 31 }
    ensures read { IfOk result (AreRowsOf rows.now.closed) }
    ensures formed { IfOk result IsWellFormed }
    ensures few_rows { IfOk result (λ p. row_count p < 2 ^ 32) }
    ensures fault { IfErr result (IsFirstPlanFault rows.now.closed) }
{
    let format = format_of(rows);
    let mut plan = Plan::empty(alloc);
    let mut room = Vec::new(alloc);
    let mut last = None;
    for row in 0..rows.len() {
        let kind = next_kind(rows, row, format, last)?;
        plan.add_row(alloc, rows, row, kind, &mut room)?;
        last = Some(kind);
    }
    if !is_end(last) {
        return Err(PlanFault::Missing(rows.len()));
    }
    Ok(plan)
}
