// Recipes with new path numbers, the coefficients of each path added up.
ghost use Rattle.std.specs.Prelude.{ℕ, ◌≡◌, ◌<◌, ◌≤◌, ◌^◌, ◌+ℤ◌, ◌==◌, cond, pos, [], List, length, map, All, AllPairs, HoldsAt, IfOk, IfNone, IfSome, OnOk, ◌≢◌, slice_index_or};
ghost use Rattle.std.specs.List.{AllWithin};
ghost use Rattle.simple_path.specs.declared.recipe.Term.{Term};
ghost use Rattle.plan_form.specs.Building.{sum_at, renumbered, IsMerged};
ghost use Rattle.plan_form.specs.Buildable.{IsShort};
ghost use Rattle.plan_form.specs.Steps.{term_of, number_in, IsWithin, AreSums};

use simple_path::{Recipe, Recipes, Term};
use std::alloc::Global;
use tomo_base::NoMemory;

// The sum of the coefficients of a path.
#[derive(Clone, Copy)]
pub struct Tally {
    pub path: u32,
    pub sum: i64,
}

// Where the path stands in the list, or has to stand.
fn place_of(tallies: &[Tally], path: u32) -> usize
    requires { AllPairs (λ s t. s.path < t.path) tallies.now }
    ensures within { result ≤ length tallies.now }
    ensures below { AllWithin (λ s. s.path < path) tallies.now 0 result }
    ensures here { result < length tallies.now → HoldsAt (λ s. path ≤ s.path) tallies.now result }
{
    tallies.partition_point(|tally| tally.path < path)
}

// The tally of one term.
fn tally_of(term: Term) -> Tally
    ensures { term_of result ≡ term }
{
    Tally {
        path: term.path,
        sum: i64::from(term.coef),
    }
}

// The tally with one term of its path more.
fn plus(tally: Tally, term: Term) -> Tally
    requires { IsWithin (2 ^ 40) tally.sum }
    ensures { result ≡ record { path = tally.path; sum = tally.sum +ℤ term.coef } }
{
    Tally {
        path: tally.path,
        sum: tally.sum + i64::from(term.coef),
    }
}

// The term of a tally, where its sum is not 0.
fn some_term(tally: Tally) -> Option<Term>
    requires { IsWithin 4 tally.sum }
    ensures some { IfSome result (λ term. (term ≡ term_of tally) × (tally.sum ≢ pos 0)) }
    ensures none { IfNone result (tally.sum ≡ pos 0) }
{
    if tally.sum == 0 {
        return None;
    }
    let coef = tally.sum as i8;
    Some(Term {
        coef,
        path: tally.path,
    })
}

// The term with a new path number.
fn renumber(term: Term, numbers: &[u32]) -> Term
    requires { term.path < length numbers.now }
    ensures term { result ≡ record { coef = term.coef; path = number_in numbers.now term.path } }
    ensures small { IsWithin 128 result.coef }
{
    Term {
        coef: term.coef,
        path: numbers[term.path as usize],
    }
}

// Adds a term to the tally of its path.
fn add(tallies: &mut Vec<Tally>, term: Term) -> Result<(), NoMemory>
    requires room { All (λ s. IsWithin (2 ^ 40) s.sum) tallies.old.items }
    requires ascending { AllPairs (λ s t. s.path < t.path) tallies.old.items }
    ensures ascending { OnOk result (AllPairs (λ s t. s.path < t.path) tallies.new.items) }
    ensures sums { OnOk result ((k : ℕ) → sum_at (map term_of tallies.new.items) k ≡ cond (term.path == k) term.coef (pos 0) +ℤ sum_at (map term_of tallies.old.items) k) }
{
    let place = place_of(tallies, term.path);
    if place < tallies.len() && tallies[place].path == term.path {
        tallies[place] = plus(tallies[place], term);
    } else {
        tallies.insert(place, tally_of(term))?;
    }
    Ok(())
}

// Makes the list that of the sums of the coefficients of all paths, by their new numbers.
fn add_up(terms: &[Term], numbers: &[u32], tallies: &mut Vec<Tally>) -> Result<(), NoMemory>
    requires few { length terms.now < 2 ^ 32 }
    requires names { All (λ t. t.path < length numbers.now) terms.now }
    ensures { OnOk result (AreSums (renumbered (number_in numbers.now) terms.now) (map term_of tallies.new.items)) }
{
    tallies.clear();
    for term in terms {
        add(tallies, renumber(*term, numbers))?;
    }
    Ok(())
}

// The sums other than 0, as terms.
fn keep_some(alloc: Global, tallies: &[Tally]) -> Result<Recipe, NoMemory>
    requires ascending { AllPairs (λ t u. t.path < u.path) (map term_of tallies.now) }
    requires short { (new : List Term) → IsMerged (map term_of tallies.now) new → IsShort new }
    ensures { IfOk result (λ new. IsMerged (map term_of tallies.now) new) }
{
    let mut recipe = Recipe::new(alloc);
    for tally in tallies {
        if let Some(term) = some_term(*tally) {
            recipe.push(term)?;
        }
    }
    Ok(recipe)
}

// The terms with new path numbers, the coefficients of each path added up in the list of tallies, whatever it held.
fn rewrite(
    alloc: Global,
    terms: &[Term],
    numbers: &[u32],
    tallies: &mut Vec<Tally>,
) -> Result<Recipe, NoMemory>
    requires few { length terms.now < 2 ^ 32 }
    requires names { All (λ t. t.path < length numbers.now) terms.now }
    requires short { (new : List Term) → IsMerged (renumbered (number_in numbers.now) terms.now) new → IsShort new }
    ensures { IfOk result (λ new. IsMerged (renumbered (number_in numbers.now) terms.now) new) }
{
    add_up(terms, numbers, tallies)?;
    keep_some(alloc, tallies)
}

// All recipes, rewritten so.
pub fn rewrite_all(alloc: Global, recipes: &Recipes, numbers: &[u32]) -> Result<Recipes, NoMemory>
    requires names { (i : ℕ) → i < length recipes.now → All (λ t. t.path < length numbers.now) (slice_index_or recipes.now i []) }
    requires short { (i : ℕ) (new : List Term) → i < length recipes.now → IsMerged (renumbered (number_in numbers.now) (slice_index_or recipes.now i [])) new → IsShort new }
    ensures one_each { IfOk result (λ all. length all ≡ length recipes.now) }
    ensures few { IfOk result (λ all. length all < 2 ^ 32) }
    ensures merged { IfOk result (λ all. (i : ℕ) → i < length recipes.now → IsMerged (renumbered (number_in numbers.now) (slice_index_or recipes.now i [])) (slice_index_or all i [])) }
{
    let mut all = Recipes::new(alloc);
    let mut tallies = Vec::new(alloc);
    for i in 0..recipes.len() {
        let recipe = rewrite(alloc, recipes.at(i).terms(), numbers, &mut tallies)?;
        if all.push(recipe).is_err() {
            return Err(NoMemory);
        }
    }
    Ok(all)
}
