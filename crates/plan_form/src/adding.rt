// What the rows of each kind tell: each function adds the item of a row to those of the rows before it.
ghost use Rattle.std.specs.Prelude.{ℕ, ◌≡◌, ◌+◌, ◌<◌, ◌^◌, ◌++◌, ◌∷◌, [], length, map, decimal, All, IfOk, IfErr, OnOk, OnErr, Some, None};
ghost use Rattle.rows.specs.Rows.{byte_count, row_bytes};
ghost use Rattle.topology.specs.Names.{row_at};
ghost use Rattle.plan_form.specs.Kinds.{field};
ghost use Rattle.plan_form.specs.Held.{part_of};
ghost use Rattle.plan_form.specs.Parts.{IsSmall, IsNodeList};
ghost use Rattle.plan_form.specs.PlanRows.{numbered, path_row};
ghost use Rattle.plan_form.specs.Taking.{IsRecordAt, AddsItem, RefusesNumber, RefusesNode, RefusesItem};
ghost use Rattle.plan_form.specs.Values.{Spells};

use crate::faults::PlanFault;
use crate::kinds::Kind;
use crate::lists::{read_nodes, read_terms};
use crate::numerals::number;
use crate::plan::HeldPocket;
use rows::Rows;
use simple_path::{PathPool, Recipe, Recipes};
use std::alloc::Global;
use tomo_base::{Link, Words};
use topology::as_name;

// The number in a field of a row.
fn number_in(rows: &Rows, row: u32, place: u32) -> Result<u32, PlanFault>
    requires row { row < length rows.now.closed }
    requires place { place < length (row_at rows.now.closed row) }
    requires number { row + 1 < 2 ^ 32 }
    ensures number { IfOk result (λ n. Spells IsSmall decimal (field (row_at rows.now.closed row) place) (Some n)) }
    ensures fault { IfErr result (λ f. f ≡ PlanFault.Number (row + 1)) }
    ensures none { OnErr result (Spells IsSmall decimal (field (row_at rows.now.closed row) place) None) }
{
    number(rows.at(row, place)).ok_or(PlanFault::Number(row + 1))
}

// Whether the number of a row is the next one of its kind.
fn check_number(rows: &Rows, row: u32, next: usize) -> Result<(), PlanFault>
    requires row { row < length rows.now.closed }
    requires place { 1 < length (row_at rows.now.closed row) }
    requires number { row + 1 < 2 ^ 32 }
    ensures is { OnOk result (Spells IsSmall decimal (field (row_at rows.now.closed row) 1) (Some next)) }
    ensures fault { IfErr result (RefusesNumber next (row + 1) (field (row_at rows.now.closed row) 1)) }
{
    if number_in(rows, row, 1)? as usize == next {
        Ok(())
    } else {
        Err(PlanFault::Order(row + 1))
    }
}

/// Adds the name of a node row.
pub(crate) fn add_name(names: &mut Words, rows: &Rows, row: u32) -> Result<(), PlanFault>
    requires at { IsRecordAt Kind.Node rows.now.closed row }
    requires room { length names.old + 1 < 2 ^ 32 }
    ensures adds { OnOk result (AddsItem Kind.Node (row_at rows.now.closed row) names.old names.new) }
    ensures refuses { IfErr result (RefusesItem Kind.Node (length names.old) (row + 1) (row_at rows.now.closed row)) }
    ensures kept { OnErr result (names.new ≡ names.old) }
{
    let Some(name) = as_name(rows.at(row, 2)) else {
        unreachable!();
    };
    check_number(rows, row, names.len() as usize)?;
    names.push(name)?;
    Ok(())
}

/// Adds the link of a link row.
pub(crate) fn add_link(links: &mut Vec<Link>, rows: &Rows, row: u32) -> Result<(), PlanFault>
    requires at { IsRecordAt Kind.Link rows.now.closed row }
    requires room { length links.old.items + 1 < 2 ^ 32 }
    ensures adds { OnOk result (AddsItem Kind.Link (row_at rows.now.closed row) links.old.items links.new.items) }
    ensures refuses { IfErr result (RefusesItem Kind.Link (length links.old.items) (row + 1) (row_at rows.now.closed row)) }
    ensures kept { OnErr result (links.new.items ≡ links.old.items) }
{
    let a = number_in(rows, row, 2)?;
    let b = number_in(rows, row, 3)?;
    check_number(rows, row, links.len())?;
    links.push(Link { a, b })?;
    Ok(())
}

/// Adds the node of a row that tells a node alone.
pub(crate) fn add_node(nodes: &mut Vec<u32>, rows: &Rows, row: u32) -> Result<(), PlanFault>
    requires row { row < length rows.now.closed }
    requires place { 1 < length (row_at rows.now.closed row) }
    requires number { row + 1 < 2 ^ 32 }
    ensures adds { OnOk result ((v : ℕ) × Spells IsSmall decimal (field (row_at rows.now.closed row) 1) (Some v) × (nodes.new.items ≡ nodes.old.items ++ v ∷ [])) }
    ensures refuses { IfErr result (RefusesNode (row + 1) (field (row_at rows.now.closed row) 1)) }
    ensures kept { OnErr result (nodes.new.items ≡ nodes.old.items) }
{
    nodes.push(number_in(rows, row, 1)?)?;
    Ok(())
}

/// Adds the pocket of a pocket row; `room` is room for its nodes.
pub(crate) fn add_pocket(
    alloc: Global,
    pockets: &mut Vec<HeldPocket>,
    rows: &Rows,
    row: u32,
    room: &mut Vec<u32>,
) -> Result<(), PlanFault>
    requires at { IsRecordAt Kind.Pocket rows.now.closed row }
    requires room { length pockets.old.items + 1 < 2 ^ 32 }
    ensures adds { OnOk result (AddsItem Kind.Pocket (row_at rows.now.closed row) (map part_of pockets.old.items) (map part_of pockets.new.items)) }
    ensures refuses { IfErr result (RefusesItem Kind.Pocket (length pockets.old.items) (row + 1) (row_at rows.now.closed row)) }
    ensures kept { OnErr result (pockets.new.items ≡ pockets.old.items) }
{
    let need = number_in(rows, row, 2)?;
    if !read_nodes(rows.at(row, 3), room)? {
        return Err(PlanFault::Number(row + 1));
    }
    check_number(rows, row, pockets.len())?;
    let nodes = room.to_vec(alloc)?;
    pockets.push(HeldPocket { need, nodes })?;
    Ok(())
}

/// Adds the path of a path row; `room` is room for its nodes.
pub(crate) fn add_path(
    paths: &mut PathPool,
    rows: &Rows,
    row: u32,
    room: &mut Vec<u32>,
) -> Result<(), PlanFault>
    requires at { IsRecordAt Kind.Path rows.now.closed row }
    requires formed { All IsNodeList paths.old }
    requires bytes { byte_count (numbered path_row 0 paths.old) + row_bytes (row_at rows.now.closed row) < 2 ^ 31 }
    ensures adds { OnOk result (AddsItem Kind.Path (row_at rows.now.closed row) paths.old paths.new) }
    ensures few { OnOk result (length paths.new < 2 ^ 31) }
    ensures refuses { IfErr result (RefusesItem Kind.Path (length paths.old) (row + 1) (row_at rows.now.closed row)) }
    ensures kept { OnErr result (paths.new ≡ paths.old) }
{
    if !read_nodes(rows.at(row, 2), room)? {
        return Err(PlanFault::Number(row + 1));
    }
    check_number(rows, row, paths.len() as usize)?;
    paths.add(room)?;
    Ok(())
}

/// Adds the recipe of a recipe row.
pub(crate) fn add_recipe(
    alloc: Global,
    recipes: &mut Recipes,
    rows: &Rows,
    row: u32,
) -> Result<(), PlanFault>
    requires at { IsRecordAt Kind.Recipe rows.now.closed row }
    requires room { length recipes.old + 1 < 2 ^ 32 }
    ensures adds { OnOk result (AddsItem Kind.Recipe (row_at rows.now.closed row) recipes.old recipes.new) }
    ensures refuses { IfErr result (RefusesItem Kind.Recipe (length recipes.old) (row + 1) (row_at rows.now.closed row)) }
    ensures kept { OnErr result (recipes.new ≡ recipes.old) }
{
    let mut recipe = Recipe::new(alloc);
    if !read_terms(rows.at(row, 2), &mut recipe)? {
        return Err(PlanFault::Number(row + 1));
    }
    check_number(rows, row, recipes.len() as usize)?;
    if recipes.push(recipe).is_err() {
        return Err(PlanFault::NoMemory);
    }
    Ok(())
}
