// The recipe of one link.
ghost use Rattle.std.specs.Prelude.{◌≡◌, ◌<◌, ◌+◌, ◌^◌, ◌++◌, ◌∷◌, [], length, map, All, IfOk, OnOk, slice_index_or};
ghost use Rattle.simple_path.specs.Terms.{path_terms};
ghost use Rattle.answers.specs.Refusals.{only};
ghost use Rattle.tomo_base.specs.Identify.{Identifies};
ghost use Rattle.tomo_base.specs.Sets.{has};
ghost use Rattle.answers.specs.Linking.{term_row, IsLinkRecipe, RefusesWord, TellsRecipe, TellsLink};

use crate::answer::Answer;
use crate::judging::tell_bad;
use crate::naming::add_names;
use crate::placed::Placed;
use crate::refusal::refuse;
use crate::status::Status;
use cross_links::recipe;
use itoa::Buffer;
use judge::{Verdict, judge};
use plan_form::{Arranged, arrange};
use rows::Rows;
use simple_path::{PathPool, Recipe, Recipes, Term};
use std::alloc::Global;
use tomo_base::NoMemory;
use topology::Topology;

// Adds the row of a term.
fn add_term(rows: &mut Rows, topology: &Topology, term: Term, path: &[u32]) -> Result<(), NoMemory>
    requires nodes { All (λ v. v < topology.now.graph.nodes) path.now }
    requires short { length path.now < 2 ^ 31 }
    requires room { length rows.old.closed + 1 < 2 ^ 32 }
    requires between { rows.old.current ≡ [] }
    ensures { OnOk result (rows.new ≡ only (rows.old.closed ++ term_row topology.now.names (term.coef, path.now) ∷ [])) }
{
    let mut digits = Buffer::new();
    rows.field(b"term")?;
    rows.field(digits.format(term.coef).as_bytes())?;
    add_names(rows, topology, path)?;
    rows.close()
}

// The rows of the terms of a recipe over paths.
fn term_rows(
    alloc: Global,
    topology: &Topology,
    paths: &PathPool,
    recipe: &Recipe,
) -> Result<Rows, NoMemory>
    requires terms { All (λ t. t.path < length paths.now) recipe.now }
    requires nodes { All (λ p. All (λ v. v < topology.now.graph.nodes) p) paths.now }
    ensures { IfOk result (λ rows. rows ≡ only (map (term_row topology.now.names) (path_terms paths.now recipe.now))) }
{
    // A pool tells how much it holds.
    let _count = paths.len();
    let mut rows = Rows::new(alloc);
    for term in recipe.terms() {
        add_term(&mut rows, topology, *term, paths.path(term.path))?;
    }
    Ok(rows)
}

// The recipe of a link, as it would stand in a plan: with its paths turned and in order.
fn arranged_recipe(alloc: Global, placed: &Placed, link: u32) -> Result<Arranged, NoMemory>
    requires link { link < length placed.now.topology.graph.links }
    requires identifies { Identifies placed.now.topology.graph (has placed.now.monitors) }
    ensures one { IfOk result (λ a. length a.recipes ≡ 1) }
    ensures recipe { IfOk result (λ a. IsLinkRecipe placed.now.topology.graph (has placed.now.monitors) link (path_terms a.paths (slice_index_or a.recipes 0 []))) }
    ensures terms { IfOk result (λ a. All (λ t. t.path < length a.paths) (slice_index_or a.recipes 0 [])) }
    ensures nodes { IfOk result (λ a. All (λ p. All (λ v. v < placed.now.topology.graph.nodes) p) a.paths) }
{
    let mut pool = PathPool::new(alloc);
    let mut recipes = Recipes::new(alloc);
    let terms = recipe(
        alloc,
        placed.topology.graph(),
        &placed.monitors,
        link,
        &mut pool,
    )?;
    recipes.push(terms).map_err(|_| NoMemory)?;
    arrange(alloc, &pool, &recipes)
}

// The recipe of a link, where the monitors identify every link.
fn tell_recipe(alloc: Global, placed: &Placed, link: u32) -> Result<Answer, NoMemory>
    requires { link < length placed.now.topology.graph.links }
    ensures { IfOk result (λ a. TellsRecipe placed.now.topology placed.now.monitors link a.status a.rows.closed) }
{
    if let Verdict::Bad(nodes) = judge(alloc, placed.topology.graph(), &placed.monitors)? {
        return tell_bad(alloc, placed, &nodes);
    }
    let told = arranged_recipe(alloc, placed, link)?;
    Ok(Answer {
        status: Status::Done,
        rows: term_rows(alloc, &placed.topology, &told.paths, told.recipes.at(0))?,
    })
}

// The answer where a word is refused.
fn refuse_word(alloc: Global, word: &str, reason: &str, place: &str) -> Result<Answer, NoMemory>
    ensures { IfOk result (λ a. RefusesWord word.now reason.now place.now a.status a.rows.closed) }
{
    Ok(Answer {
        status: Status::BadInput,
        rows: refuse(alloc, word, reason, place)?,
    })
}

/// Tells the recipe of the link between two named nodes.
pub fn tell_link(
    alloc: Global,
    placed: &Placed,
    first: &str,
    second: &str,
) -> Result<Answer, NoMemory>
    ensures { IfOk result (λ a. TellsLink placed.now.topology placed.now.monitors first.now second.now a.status a.rows.closed) }
{
    let topology = &placed.topology;
    let Some(a) = topology.find(first) else {
        return refuse_word(alloc, first, "node", "a");
    };
    let Some(b) = topology.find(second) else {
        return refuse_word(alloc, second, "node", "b");
    };
    match topology.graph().between(a, b) {
        Some(link) => tell_recipe(alloc, placed, link),
        None => refuse_word(alloc, first, "unlinked", second),
    }
}
