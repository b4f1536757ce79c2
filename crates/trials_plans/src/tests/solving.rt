// Rounds over small plans that are made are solved where memory is ample.
ghost use Rattle.std.specs.Prelude.{◌<◌, ◌^◌, length};

use crate::tests::small::topology_of;
use link_solver::{Answer, Delays, Why, are_tied, solve_into};
use planner::make_plan;
use samples::{STAR, TRIANGLES};
use std::alloc::Global;
use std::test::Fail;

// The answer of a round over the plan of the topology with these rows, and the delays after it, if there is one sum for each path.
fn round(alloc: Global, text: &[u8], sums: &[u64]) -> Result<Option<(Answer, Delays)>, Fail>
    requires { length text.now < 2 ^ 31 }
{
    let topology = topology_of(alloc, text)?;
    let plan = make_plan(alloc, &topology)?;
    let mut delays = Delays::for_plan(alloc, &plan)?;
    if sums.len() != plan.paths().len() as usize {
        return Ok(None);
    }
    let answer = solve_into(topology.graph(), &plan, sums, &mut delays);
    Ok(Some((answer, delays)))
}

// Whether the round has this answer.
fn answers(alloc: Global, text: &[u8], sums: &[u64], wanted: Answer) -> Result<bool, Fail>
    requires { length text.now < 2 ^ 31 }
{
    let found = round(alloc, text, sums)?;
    Ok(matches!(found, Some((answer, _)) if answer == wanted))
}

#[test]
fn sums_along_a_star_are_solved(rt: HostRuntime) -> Result<(), Fail> {
    let solved = round(rt.alloc(), STAR, &[5, 6, 7])?;
    assert!(rt;
        matches!(&solved, Some((Answer::Solved, delays)) if delays.as_slice() == [2, 3, 4].as_slice())
    );
    Ok(())
}

#[test]
fn links_without_a_delay_are_named(rt: HostRuntime) -> Result<(), Fail> {
    let alloc = rt.alloc();
    for (sums, link, why) in [
        ([5, 6, 8], 0, Why::Odd),
        ([2, 2, 10], 0, Why::Negative),
        ([2_000_000_000_000_002, 0, 0], 0, Why::Large),
        ([2_000_000_000_000_000, 0, 0], 2, Why::Negative),
    ] {
        assert!(rt; answers(alloc, STAR, &sums, Answer::Link(link, why))?);
    }
    Ok(())
}

// Whether the plan that is made for the topology with these rows is known to be tied.
fn is_known_tied(alloc: Global, text: &[u8]) -> Result<bool, Fail>
    requires { length text.now < 2 ^ 31 }
{
    let topology = topology_of(alloc, text)?;
    let plan = make_plan(alloc, &topology)?;
    Ok(are_tied(alloc, topology.graph(), &plan)?)
}

#[test]
fn plans_that_are_made_are_known_to_be_tied(rt: HostRuntime) -> Result<(), Fail> {
    for text in [STAR, TRIANGLES] {
        assert!(rt; is_known_tied(rt.alloc(), text)?);
    }
    Ok(())
}

// A number by chance, from 40 to 102, and even.
fn even(seed: u32, place: u32) -> u64 {
    let mixed = seed
        .wrapping_mul(7)
        .wrapping_add(place)
        .wrapping_mul(2_654_435_761);
    2 * u64::from(mixed / 65_536 % 32) + 40
}

// The answer to seven even sums by chance over the plan of two triangles joined by a link.
fn drawn(alloc: Global, seed: u32) -> Result<Option<Answer>, Fail> {
    let sums = [
        even(seed, 0),
        even(seed, 1),
        even(seed, 2),
        even(seed, 3),
        even(seed, 4),
        even(seed, 5),
        even(seed, 6),
    ];
    let found = round(alloc, TRIANGLES, &sums)?;
    Ok(found.map(|(answer, _)| answer))
}

#[test]
fn even_sums_by_chance_are_solved_or_negative(rt: HostRuntime) -> Result<(), Fail> {
    let mut solved = false;
    let mut negative = false;
    for seed in 0..60u32 {
        let answer = drawn(rt.alloc(), seed)?;
        let is_solved = answer == Some(Answer::Solved);
        let is_negative = matches!(answer, Some(Answer::Link(_, Why::Negative)));
        assert!(rt; is_solved || is_negative);
        solved = solved || is_solved;
        negative = negative || is_negative;
    }
    assert!(rt; solved);
    assert!(rt; negative);
    Ok(())
}
