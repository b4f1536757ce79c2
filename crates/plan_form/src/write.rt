// The rows of a plan.
ghost use Rattle.std.specs.Prelude.{◌≡◌, ◌+◌, ◌<◌, ◌^◌, ◌++◌, [], ◌∷◌, IfOk, OnOk, length, map, decimal};
ghost use Rattle.plan_form.specs.Spelling.{numbers_text, term_text, terms_text};
ghost use Rattle.plan_form.specs.Held.{part_of};
ghost use Rattle.plan_form.specs.PlanRows.{AddsRows, AddsEach, HasRoomForRows, node_row, link_row, pocket_row, path_row, recipe_row, row_count, plan_rows as rows_of_plan};

use crate::kinds::NEWEST_FORMAT;
use crate::plan::{HeldPocket, Plan};
use itoa::Buffer;
use rows::Rows;
use simple_path::{PathPool, Recipes, Term};
use std::alloc::Global;
use tomo_base::{Link, NoMemory, Words};

/// Puts the numbers, joined by single spaces, into an empty text. After want of memory the text may have a part of them.
pub fn numbers_joined(numbers: &[u32], text: &mut Vec<u8>) -> Result<(), NoMemory>
    requires { text.old.items ≡ [] }
    ensures { OnOk result (text.new.items ≡ numbers_text numbers.now) }
{
    for (i, n) in numbers.iter().enumerate() {
        if i > 0 {
            text.push(b' ')?;
        }
        let mut digits = Buffer::new();
        text.extend_from_slice(digits.format(*n).as_bytes())?;
    }
    Ok(())
}

// Puts a coefficient, a colon and a path number at the end of a text.
fn term_joined(term: Term, text: &mut Vec<u8>) -> Result<(), NoMemory>
    ensures { OnOk result (text.new.items ≡ text.old.items ++ term_text term) }
{
    let mut digits = Buffer::new();
    text.extend_from_slice(digits.format(term.coef).as_bytes())?;
    text.push(b':')?;
    text.extend_from_slice(digits.format(term.path).as_bytes())?;
    Ok(())
}

// Puts the terms, joined by single spaces, into an empty text.
fn terms_joined(terms: &[Term], text: &mut Vec<u8>) -> Result<(), NoMemory>
    requires { text.old.items ≡ [] }
    ensures { OnOk result (text.new.items ≡ terms_text terms.now) }
{
    for (i, term) in terms.iter().enumerate() {
        if i > 0 {
            text.push(b' ')?;
        }
        term_joined(*term, text)?;
    }
    Ok(())
}

/// Adds a row with these fields, one or more. After want of memory the rows may have a part of it.
pub fn add_row(rows: &mut Rows, fields: &[&[u8]]) -> Result<(), NoMemory>
    requires none { rows.old.current ≡ [] }
    requires some { 0 < length fields.now }
    requires few { length fields.now < 2 ^ 32 }
    requires room { length rows.old.closed + 1 < 2 ^ 32 }
    ensures rows { OnOk result (AddsRows rows.old rows.new (map (λ f. f.now) fields.now ∷ [])) }
    ensures count { OnOk result (length rows.new.closed ≡ length rows.old.closed + 1) }
{
    for field in fields {
        rows.field(field)?;
    }
    rows.close()
}

/// Adds a row of a kind with its number and one more field. After want of memory the rows may have a part of it.
pub fn add_numbered(rows: &mut Rows, word: &str, i: u32, rest: &[u8]) -> Result<(), NoMemory>
    requires none { rows.old.current ≡ [] }
    requires room { length rows.old.closed + 1 < 2 ^ 32 }
    ensures { OnOk result (AddsRows rows.old rows.new ((word.now ∷ decimal i ∷ rest.now ∷ []) ∷ [])) }
{
    let mut number = Buffer::new();
    add_row(rows, &[word.as_bytes(), number.format(i).as_bytes(), rest])
}

/// Adds a row of a kind with its number and a list of numbers; `text` is room for the list. After want of memory the rows may have a
/// part of it.
pub fn add_list(
    rows: &mut Rows,
    word: &str,
    i: u32,
    numbers: &[u32],
    text: &mut Vec<u8>,
) -> Result<(), NoMemory>
    requires none { rows.old.current ≡ [] }
    requires room { length rows.old.closed + 1 < 2 ^ 32 }
    ensures { OnOk result (AddsRows rows.old rows.new ((word.now ∷ decimal i ∷ numbers_text numbers.now ∷ []) ∷ [])) }
{
    text.clear();
    numbers_joined(numbers, text)?;
    add_numbered(rows, word, i, text)
}

/// Adds a row of a kind with its number, a further number, and one more field. After want of memory the rows may have a part of it.
pub fn add_counted(
    rows: &mut Rows,
    word: &str,
    i: u32,
    count: u32,
    rest: &[u8],
) -> Result<(), NoMemory>
    requires none { rows.old.current ≡ [] }
    requires room { length rows.old.closed + 1 < 2 ^ 32 }
    ensures { OnOk result (AddsRows rows.old rows.new ((word.now ∷ decimal i ∷ decimal count ∷ rest.now ∷ []) ∷ [])) }
{
    let mut number = Buffer::new();
    let mut further = Buffer::new();
    add_row(
        rows,
        &[
            word.as_bytes(),
            number.format(i).as_bytes(),
            further.format(count).as_bytes(),
            rest,
        ],
    )
}

// Adds a row for each name.
fn add_names(rows: &mut Rows, names: &Words) -> Result<(), NoMemory>
    requires { HasRoomForRows rows.old (length names.now) }
    ensures { OnOk result (AddsEach node_row names.now rows.old rows.new) }
{
    for i in 0..names.len() {
        add_numbered(rows, "node", i, names.at(i).as_bytes())?;
    }
    Ok(())
}

// Adds a row for each link.
fn add_links(rows: &mut Rows, links: &[Link]) -> Result<(), NoMemory>
    requires { HasRoomForRows rows.old (length links.now) }
    ensures { OnOk result (AddsEach link_row links.now rows.old rows.new) }
{
    for (i, link) in links.iter().enumerate() {
        let mut end = Buffer::new();
        add_counted(
            rows,
            "link",
            i as u32,
            link.a,
            end.format(link.b).as_bytes(),
        )?;
    }
    Ok(())
}

// Adds a row of the word for each node.
fn add_nodes(rows: &mut Rows, word: &str, nodes: &[u32]) -> Result<(), NoMemory>
    requires { HasRoomForRows rows.old (length nodes.now) }
    ensures { OnOk result (AddsEach (λ _ v. word.now ∷ decimal v ∷ []) nodes.now rows.old rows.new) }
{
    for v in nodes {
        let mut node = Buffer::new();
        add_row(rows, &[word.as_bytes(), node.format(*v).as_bytes()])?;
    }
    Ok(())
}

// Adds a row for each pocket; `text` is room for the nodes.
fn add_pockets(rows: &mut Rows, pockets: &[HeldPocket], text: &mut Vec<u8>) -> Result<(), NoMemory>
    requires { HasRoomForRows rows.old (length pockets.now) }
    ensures { OnOk result (AddsEach pocket_row (map part_of pockets.now) rows.old rows.new) }
{
    for (i, pocket) in pockets.iter().enumerate() {
        text.clear();
        numbers_joined(&pocket.nodes, text)?;
        add_counted(rows, "pocket", i as u32, pocket.need, text)?;
    }
    Ok(())
}

// Adds a row for each path; `text` is room for the nodes.
fn add_paths(rows: &mut Rows, paths: &PathPool, text: &mut Vec<u8>) -> Result<(), NoMemory>
    requires { HasRoomForRows rows.old (length paths.now) }
    ensures { OnOk result (AddsEach path_row paths.now rows.old rows.new) }
{
    for i in 0..paths.len() {
        add_list(rows, "path", i, paths.path(i), text)?;
    }
    Ok(())
}

// Adds a row for each recipe; `text` is room for the terms.
fn add_recipes(rows: &mut Rows, recipes: &Recipes, text: &mut Vec<u8>) -> Result<(), NoMemory>
    requires { HasRoomForRows rows.old (length recipes.now) }
    ensures { OnOk result (AddsEach recipe_row recipes.now rows.old rows.new) }
{
    for i in 0..recipes.len() {
        text.clear();
        terms_joined(recipes.at(i).terms(), text)?;
        add_numbered(rows, "recipe", i, text)?;
    }
    Ok(())
}

/// The rows of a plan, in the newest format: the names, the links, the forced nodes, the barred nodes, the monitors, the pockets, the
/// paths and the recipes, between a first row with the format's number and a last row.
pub fn plan_rows(alloc: Global, plan: &Plan) -> Result<Rows, NoMemory>
    requires { row_count plan.now < 2 ^ 32 }
    ensures { IfOk result (λ rows. rows ≡ record { closed = rows_of_plan plan.now; current = [] }) }
{
    let mut rows = Rows::new(alloc);
    let mut text = Vec::new(alloc);
    let mut number = Buffer::new();
    add_row(
        &mut rows,
        &["plan".as_bytes(), number.format(NEWEST_FORMAT).as_bytes()],
    )?;
    add_names(&mut rows, &plan.names)?;
    add_links(&mut rows, &plan.links)?;
    add_nodes(&mut rows, "must", &plan.forced)?;
    add_nodes(&mut rows, "not", &plan.barred)?;
    add_nodes(&mut rows, "monitor", &plan.monitors)?;
    add_pockets(&mut rows, &plan.pockets, &mut text)?;
    add_paths(&mut rows, &plan.paths, &mut text)?;
    add_recipes(&mut rows, &plan.recipes, &mut text)?;
    add_row(&mut rows, &["end".as_bytes()])?;
    Ok(rows)
}
