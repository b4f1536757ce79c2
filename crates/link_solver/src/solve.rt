// The delays of all links, from the sums along the paths of a plan.
ghost use Rattle.std.specs.Prelude.{◌≡◌, ◌≤◌, ◌<◌, ◌^◌, ◌+◌, ◌-◌, ◌*◌, ◌/◌, ℕ, [], Some, None, length, All, OnOk, IfOk, IfErr, IfSome, IfNone, slice_index_or, IsTrue};
ghost use Rattle.tomo_base.specs.Limits.{summand_limit};
ghost use Rattle.tomo_base.specs.Sets.{has};
ghost use Rattle.tomo_base.specs.Recipes.{gain_of, loss_of};
ghost use Rattle.plan_form.specs.Good.{AreGoodPaths, AreGoodRecipes};
ghost use Rattle.link_solver.specs.Verdict as spec;
ghost use Rattle.link_solver.specs.Verdict.{why_not, halves, AllHaveDelays, HasSums, IsFirstLink, IsFirstPath, Means, NamesNoPath, AnswersRound};
ghost use Rattle.link_solver.specs.declared.answer.Answer.TheVariants.{Solved};
ghost use Rattle.plan_form.specs.Tied.{AreTied};

use crate::answer::{Answer, Why};
use crate::delays::Delays;
use plan_form::Plan;
use simple_path::{PathPool, Recipes, Term, sum_along};
use tomo_base::{DELAY_LIMIT, Graph};

// The doubled value of the largest delay.
const DOUBLED_LIMIT: u128 = 2 * DELAY_LIMIT as u128;

// The doubled value of a link: what its recipe gains, less what it loses.
#[derive(Clone, Copy)]
pub struct Balance {
    pub gain: u128,
    pub loss: u128,
}

// The doubled value with one term more.
fn plus(value: Balance, term: Term, sum: u64) -> Balance
    requires gain { value.gain ≤ 2 ^ 103 }
    requires loss { value.loss ≤ 2 ^ 103 }
    ensures gain { result.gain ≡ value.gain + gain_of term.coef * sum }
    ensures loss { result.loss ≡ value.loss + loss_of term.coef * sum }
    ensures small { (result.gain ≤ value.gain + 2 ^ 71) × (result.loss ≤ value.loss + 2 ^ 71) }
{
    let part = u128::from(term.coef.unsigned_abs()) * u128::from(sum);
    if term.coef < 0 {
        Balance {
            gain: value.gain,
            loss: value.loss + part,
        }
    } else {
        Balance {
            gain: value.gain + part,
            loss: value.loss,
        }
    }
}

// The doubled value of the link with this recipe.
fn balance_of(terms: &[Term], sums: &[u64]) -> Balance
    requires few { length terms.now < 2 ^ 32 }
    requires names { All (λ t. t.path < length sums.now) terms.now }
    ensures gain { result.gain ≡ spec.gain sums.now terms.now }
    ensures loss { result.loss ≡ spec.loss sums.now terms.now }
{
    let mut value = Balance { gain: 0, loss: 0 };
    for term in terms {
        value = plus(value, *term, sums[term.path as usize]);
    }
    value
}

// The delay, or the first reason why there is none.
fn delay_of(value: Balance) -> Result<u64, Why>
    ensures ok { OnOk result (why_not value.gain value.loss ≡ None) }
    ensures delay { IfOk result (λ d. d ≡ (value.gain - value.loss) / 2) }
    ensures err { IfErr result (λ why. why_not value.gain value.loss ≡ Some why) }
{
    if value.gain % 2 != value.loss % 2 {
        return Err(Why::Odd);
    }
    if value.gain < value.loss {
        return Err(Why::Negative);
    }
    let twice = value.gain - value.loss;
    if twice > DOUBLED_LIMIT {
        return Err(Why::Large);
    }
    Ok((twice / 2) as u64)
}

// Fills in the delays of all links, or answers the first link that has none, and why.
fn fill_in(recipes: &Recipes, sums: &[u64], out: &mut Delays) -> Result<(), (u32, Why)>
    requires names { (i : ℕ) → i < length recipes.now → All (λ t. t.path < length sums.now) (slice_index_or recipes.now i []) }
    requires one_each { length out.old ≡ length recipes.now }
    ensures same_length { length out.new ≡ length out.old }
    ensures all { OnOk result (AllHaveDelays sums.now recipes.now) }
    ensures halves { OnOk result (out.new ≡ halves sums.now recipes.now) }
    ensures refused { IfErr result (λ first. IsFirstLink sums.now recipes.now first.0 first.1) }
{
    for i in 0..recipes.len() {
        match delay_of(balance_of(recipes.at(i).terms(), sums)) {
            Ok(delay) => out.delays[i as usize] = delay,
            Err(why) => return Err((i, why)),
        }
    }
    Ok(())
}

// The first path along which the delays do not add up to the given sum.
fn first_other(g: &Graph, paths: &PathPool, sums: &[u64], delays: &[u64]) -> Option<u32>
    requires paths { (i : ℕ) → i < length paths.now → spec.IsPath g.now (slice_index_or paths.now i []) }
    requires sums { length sums.now ≡ length paths.now }
    requires one_each { length delays.now ≡ length g.now.links }
    requires small { All (λ d. d ≤ summand_limit) delays.now }
    ensures found { IfSome result (λ i. IsFirstPath g.now paths.now sums.now delays.now i) }
    ensures none { IfNone result (HasSums g.now paths.now sums.now delays.now) }
{
    for i in 0..paths.len() {
        if sum_along(g, paths.path(i), delays) != sums[i as usize] {
            return Some(i);
        }
    }
    None
}

/// Solves a round over a good plan. `sums` has one sum for each path of the plan, in their order, and `out` one place for each link.
///
/// The doubled value of a link is the sum over its recipe of coefficient times sum. `Link` is the first link whose doubled value is
/// not twice a delay, with the first reason of `Odd`, `Negative` and `Large`. `Path` is the first path along which the halves of the
/// doubled values do not add up to its sum. Either means that no assignment has these sums. `Solved` means that one has, and `out`
/// has it then; after another answer `out` has any numbers. Over a tied plan the answer is never `Path`: where each link has a delay,
/// the round is solved. It takes no memory: a pass over the terms of all recipes, and one over
/// the links of all paths.
pub fn solve_into(g: &Graph, p: &Plan, sums: &[u64], out: &mut Delays) -> Answer
    requires paths { AreGoodPaths g.now (has p.now.monitors) p.now.paths }
    requires recipes { AreGoodRecipes g.now p.now.paths p.now.recipes }
    requires sums { length sums.now ≡ length p.now.paths }
    requires one_each { length out.old ≡ length g.now.links }
    ensures verdict { AnswersRound g.now p.now.paths p.now.recipes sums.now out.new result }
    ensures means { Means g.now p.now.paths sums.now out.new result }
    ensures no_path { AreTied g.now.links p.now.paths p.now.recipes → NamesNoPath result }
    ensures solved { AreTied g.now.links p.now.paths p.now.recipes → AllHaveDelays sums.now p.now.recipes → result ≡ Solved }
    ensures same_length { length out.new ≡ length out.old }
{
    solve_round(g, p, false, sums, out)
}

/// The same answer as that of `solve_into`, where it may be known that the plan is tied: then the paths are not looked at, and the round
/// takes a pass over the terms of all recipes alone.
pub fn solve_round(g: &Graph, p: &Plan, is_tied: bool, sums: &[u64], out: &mut Delays) -> Answer
    requires paths { AreGoodPaths g.now (has p.now.monitors) p.now.paths }
    requires recipes { AreGoodRecipes g.now p.now.paths p.now.recipes }
    requires tied { IsTrue is_tied → AreTied g.now.links p.now.paths p.now.recipes }
    requires sums { length sums.now ≡ length p.now.paths }
    requires one_each { length out.old ≡ length g.now.links }
    ensures verdict { AnswersRound g.now p.now.paths p.now.recipes sums.now out.new result }
    ensures means { Means g.now p.now.paths sums.now out.new result }
    ensures no_path { AreTied g.now.links p.now.paths p.now.recipes → NamesNoPath result }
    ensures solved { AreTied g.now.links p.now.paths p.now.recipes → AllHaveDelays sums.now p.now.recipes → result ≡ Solved }
    ensures same_length { length out.new ≡ length out.old }
{
    let _nodes = g.nodes();
    if let Err((link, why)) = fill_in(p.recipes(), sums, out) {
        return Answer::Link(link, why);
    }
    if is_tied {
        return Answer::Solved;
    }
    match first_other(g, p.paths(), sums, out.as_slice()) {
        Some(path) => Answer::Path(path),
        None => Answer::Solved,
    }
}
