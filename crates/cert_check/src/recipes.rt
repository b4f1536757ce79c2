// The recipes of a plan.
ghost use Rattle.std.specs.Prelude.{◌≡◌, ◌<◌, ◌↔◌, ◌⊎◌, [], ℕ, length, All, AllPairs, IfOk, OnOk, IfSome, IfNone, IsTrue};
ghost use Rattle.tomo_base.specs.Walks.{IsWalk};
ghost use Rattle.simple_path.specs.Terms.{path_terms};
ghost use Rattle.plan_form.specs.Parts.{IsTermList};
ghost use Rattle.plan_form.specs.Good.{IsGoodRecipe};
ghost use Rattle.cert_check.specs.Faults.{IsFirstWithout, IsGoodRecipeAt};
ghost use Rattle.cert_check.specs.Counting.{AreStepsOfAll, IsCounted};

use crate::counts::Counts;
use crate::steps::steps_of_all;
use simple_path::{PathPool, Recipes, Term};
use std::alloc::{AllocFailed, Global};
use tomo_base::{Graph, NoMemory};

// Whether the terms name paths of so many, ascending.
fn name_paths(terms: &[Term], count: u32) -> bool
    ensures { IsTrue result ↔ (All (λ t. t.path < count) terms.now × AllPairs (λ t u. t.path < u.path) terms.now) }
{
    // The least number that may stand here.
    let mut least = 0;
    for term in terms {
        if term.path < least || term.path >= count {
            return false;
        }
        least = term.path + 1;
    }
    true
}

// Counts the links in the paths of the terms.
fn count_terms(
    g: &Graph,
    paths: &PathPool,
    steps: &[Vec<u32>],
    terms: &[Term],
    counts: &mut Counts,
) -> Result<(), AllocFailed<u32>>
    requires bare { IsCounted g.now.links [] counts.old }
    requires steps { AreStepsOfAll g.now.links paths.now steps.now }
    requires names { All (λ t. t.path < length paths.now) terms.now }
    requires formed { IsTermList terms.now }
    ensures { OnOk result (IsCounted g.now.links (path_terms paths.now terms.now) counts.new) }
{
    let _paths = paths.len();
    for term in terms {
        counts.add(&steps[term.path as usize], term.coef)?;
    }
    Ok(())
}

// Whether the terms are a good recipe for link i.
fn is_good_recipe(
    g: &Graph,
    paths: &PathPool,
    steps: &[Vec<u32>],
    terms: &[Term],
    i: u32,
    counts: &mut Counts,
) -> Result<bool, NoMemory>
    requires link { i < length g.now.links }
    requires bare { IsCounted g.now.links [] counts.old }
    requires steps { AreStepsOfAll g.now.links paths.now steps.now }
    requires formed { IsTermList terms.now }
    ensures good { IfOk result (λ good. IsTrue good ↔ IsGoodRecipe g.now paths.now i terms.now) }
    ensures bare { OnOk result (IsCounted g.now.links [] counts.new) }
{
    if !name_paths(terms, paths.len()) {
        return Ok(false);
    }
    count_terms(g, paths, steps, terms, counts)?;
    let good = counts.is_recipe(g, i);
    counts.clear(g);
    Ok(good)
}

// The first number that is not both a link's and that of a good recipe for it. Each link of each path is looked up once; then time is linear
// in the links of the paths that the recipes name.
pub fn first_bad_recipe(
    alloc: Global,
    g: &Graph,
    paths: &PathPool,
    recipes: &Recipes,
) -> Result<Option<u32>, NoMemory>
    requires walks { All (IsWalk g.now) paths.now }
    requires formed { All IsTermList recipes.now }
    ensures within { IfOk result (λ o. IfSome o (λ i. (i < length g.now.links) ⊎ (i < length recipes.now))) }
    ensures some { IfOk result (λ o. IfSome o (IsFirstWithout (IsGoodRecipeAt g.now paths.now recipes.now))) }
    ensures count { IfOk result (λ o. IfNone o (length recipes.now ≡ length g.now.links)) }
    ensures none { IfOk result (λ o. IfNone o ((i : ℕ) → i < length recipes.now → IsGoodRecipeAt g.now paths.now recipes.now i)) }
{
    let links = g.links().len() as u32;
    let both = links.min(recipes.len());
    let steps = steps_of_all(alloc, g, paths)?;
    let mut counts = Counts::new(alloc, g)?;
    for i in 0..both {
        let terms = recipes.at(i).terms();
        if !is_good_recipe(g, paths, &steps, terms, i, &mut counts)? {
            return Ok(Some(i));
        }
    }
    Ok(if links == recipes.len() {
        None
    } else {
        Some(both)
    })
}
