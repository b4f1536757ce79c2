// Rounds of sums are solved.
ghost use Rattle.std.specs.Prelude.{◌≡◌, ◌≤◌, ◌<◌, ◌+◌, ◌^◌, ◌++◌, ◌∷◌, [], List, length, map, decimal, codes, IfOk, OnOk, IsTrue};
ghost use Rattle.tomo_base.specs.Limits.{link_limit};
ghost use Rattle.plan_form.specs.PlanRows.{AddsRows, numbered};
ghost use Rattle.plan_form.specs.Tied.{AreTied};
ghost use Rattle.answers.specs.Refusals.{only};
ghost use Rattle.answers.specs.Rounds.{Outcome, AreOutcomes, why_word, told, round_row, ends_row, refusals, refused_count, count_row, solution_status, Solves};

use crate::answer::Answer;
use crate::checked::Measured;
use crate::status::Status;
use itoa::Buffer;
use link_solver::{Answer as Verdict, Delays, Why, are_tied, solve_round};
use rows::Rows;
use std::alloc::Global;
use tomo_base::{Link, NoMemory};
use topology::Topology;

// Adds the row of a link, with the names of its ends.
fn add_link(rows: &mut Rows, topology: &Topology, i: u32, link: Link) -> Result<(), NoMemory>
    requires ends { (link.a < topology.now.graph.nodes) × (link.b < topology.now.graph.nodes) }
    requires room { length rows.old.closed + 1 < 2 ^ 32 }
    requires between { rows.old.current ≡ [] }
    ensures { OnOk result (AddsRows rows.old rows.new (ends_row topology.now.names i link ∷ [])) }
{
    let mut number = Buffer::new();
    rows.field(b"link")?;
    rows.field(number.format(i).as_bytes())?;
    rows.field(topology.name(link.a).as_bytes())?;
    rows.field(topology.name(link.b).as_bytes())?;
    rows.close()
}

// Adds the rows of all links.
fn add_links(rows: &mut Rows, topology: &Topology) -> Result<(), NoMemory>
    requires { rows.old ≡ only [] }
    ensures rows { OnOk result (AddsRows rows.old rows.new (numbered (ends_row topology.now.names) 0 topology.now.graph.links)) }
    ensures few { OnOk result (length rows.new.closed ≤ link_limit) }
{
    let links = topology.graph().links();
    for (i, link) in links.iter().enumerate() {
        add_link(rows, topology, i as u32, *link)?;
    }
    Ok(())
}

// Adds numbers as fields.
fn add_numbers(rows: &mut Rows, numbers: &[u64]) -> Result<(), NoMemory>
    requires { length rows.old.current + length numbers.now < 2 ^ 32 }
    ensures { OnOk result (rows.new ≡ record rows.old { current = rows.old.current ++ map decimal numbers.now }) }
{
    for &number in numbers {
        let mut digits = Buffer::new();
        rows.field(digits.format(number).as_bytes())?;
    }
    Ok(())
}

// Adds a word and a number as fields.
fn add_refusal(rows: &mut Rows, word: &str, place: u32) -> Result<(), NoMemory>
    requires { length rows.old.current + 2 < 2 ^ 32 }
    ensures { OnOk result (rows.new ≡ record rows.old { current = rows.old.current ++ word.now ∷ decimal place ∷ [] }) }
{
    let mut digits = Buffer::new();
    rows.field(word.as_bytes())?;
    rows.field(digits.format(place).as_bytes())
}

// The word for a reason.
fn word_of(why: Why) -> &'static str
    ensures { result.now ≡ why_word why }
{
    match why {
        Why::Odd => "odd",
        Why::Negative => "negative",
        Why::Large => "large",
    }
}

// Adds what is told of a round as fields.
fn add_told(rows: &mut Rows, verdict: Verdict, delays: &Delays) -> Result<(), NoMemory>
    requires { length rows.old.current + length delays.now + 2 < 2 ^ 32 }
    ensures { OnOk result (rows.new ≡ record rows.old { current = rows.old.current ++ told verdict delays.now }) }
{
    match verdict {
        Verdict::Solved => {
            rows.field(b"ok")?;
            add_numbers(rows, delays.as_slice())
        }
        Verdict::Link(link, why) => add_refusal(rows, word_of(why), link),
        Verdict::Path(path) => add_refusal(rows, "path", path),
    }
}

// Adds the row of a round.
fn add_round(rows: &mut Rows, k: u32, verdict: Verdict, delays: &Delays) -> Result<(), NoMemory>
    requires few { length delays.now ≤ link_limit }
    requires room { length rows.old.closed + 1 < 2 ^ 32 }
    requires between { rows.old.current ≡ [] }
    ensures { OnOk result (AddsRows rows.old rows.new ((codes "round" ∷ decimal k ∷ told verdict delays.now) ∷ [])) }
{
    let mut number = Buffer::new();
    rows.field(b"round")?;
    rows.field(number.format(k).as_bytes())?;
    add_told(rows, verdict, delays)?;
    rows.close()
}

// 1 for a round that is refused.
fn refusals_of(verdict: Verdict) -> u32
    ensures count { result ≡ refusals verdict }
    ensures one { result ≤ 1 }
{
    match verdict {
        Verdict::Solved => 0,
        Verdict::Link(_, _) | Verdict::Path(_) => 1,
    }
}

// From so many rounds on it is tried whether the plan is tied, which takes about as long as two rounds, and saves most of each.
const MANY_ROUNDS: u32 = 4;

// Whether the plan is known to be tied, as far as that is worth a try.
fn is_known_tied(alloc: Global, measured: &Measured) -> Result<bool, NoMemory>
    ensures { IfOk result (λ tied. IsTrue tied → AreTied measured.now.checked.topology.graph.links measured.now.checked.plan.paths measured.now.checked.plan.recipes) }
{
    if measured.rounds.len() < MANY_ROUNDS {
        return Ok(false);
    }
    are_tied(
        alloc,
        measured.checked.topology.graph(),
        &measured.checked.plan,
    )
}

// Solves the rounds one after the other, adds their rows, and counts those that are refused.
fn add_rounds(
    rows: &mut Rows,
    measured: &Measured,
    is_tied: bool,
    delays: &mut Delays,
) -> Result<u32, NoMemory>
    requires few { length rows.old.closed ≤ link_limit }
    requires between { rows.old.current ≡ [] }
    requires one_each { length delays.old ≡ length measured.now.checked.topology.graph.links }
    requires tied { IsTrue is_tied → AreTied measured.now.checked.topology.graph.links measured.now.checked.plan.paths measured.now.checked.plan.recipes }
    ensures { IfOk result (λ refused. (outcomes : List Outcome)
        × AreOutcomes measured.now.checked.topology.graph measured.now.checked.plan measured.now.rounds outcomes
        × AddsRows rows.old rows.new (numbered round_row 0 outcomes)
        × (refused ≡ refused_count outcomes)) }
{
    let graph = measured.checked.topology.graph();
    let plan = &measured.checked.plan;
    let mut refused = 0;
    for k in 0..measured.rounds.len() {
        let verdict = solve_round(graph, plan, is_tied, measured.rounds.round(k), delays);
        add_round(rows, k, verdict, delays)?;
        refused += refusals_of(verdict);
    }
    Ok(refused)
}

// Adds the row with the numbers of all rounds and of those that are refused.
fn add_counts(rows: &mut Rows, rounds: u32, refused: u32) -> Result<(), NoMemory>
    requires room { length rows.old.closed + 1 < 2 ^ 32 }
    requires between { rows.old.current ≡ [] }
    ensures { OnOk result (AddsRows rows.old rows.new (count_row rounds refused ∷ [])) }
{
    let mut all = Buffer::new();
    let mut some = Buffer::new();
    rows.field(b"end")?;
    rows.field(all.format(rounds).as_bytes())?;
    rows.field(some.format(refused).as_bytes())?;
    rows.close()
}

// Done where no round is refused.
fn status_of(refused: u32) -> Status
    ensures { result ≡ solution_status refused }
{
    if refused == 0 {
        Status::Done
    } else {
        Status::Negative
    }
}

/// Solves rounds over a good plan: the links, the delays of each round or what shows that there are none, and the counts. A round
/// takes a pass over the terms of all recipes, and, unless the plan is known to be tied, one over the links of all paths.
pub fn solve_rounds(alloc: Global, measured: &Measured) -> Result<Answer, NoMemory>
    ensures { IfOk result (λ a. Solves measured.now.checked.topology measured.now.checked.plan measured.now.rounds a.status a.rows.closed) }
{
    let checked = &measured.checked;
    let mut delays = Delays::for_plan(alloc, &checked.plan)?;
    let is_tied = is_known_tied(alloc, measured)?;
    let mut rows = Rows::new(alloc);
    add_links(&mut rows, &checked.topology)?;
    let refused = add_rounds(&mut rows, measured, is_tied, &mut delays)?;
    add_counts(&mut rows, measured.rounds.len(), refused)?;
    Ok(Answer {
        status: status_of(refused),
        rows,
    })
}
