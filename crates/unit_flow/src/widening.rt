// One widening of a flow: the array of its paths, the search, the walk over what was found, and the new paths.

ghost use Rattle.std.specs.Prelude.{◌≡◌, ◌<◌, ◌≤◌, ℕ, None, ◌∷◌, length, All, map, IfOk};
ghost use Rattle.unit_flow.specs.Flows.{IsFlow, last_of};
ghost use Rattle.unit_flow.specs.Arrays.{load_all};
ghost use Rattle.unit_flow.specs.Steps.{entry_of};
ghost use Rattle.unit_flow.specs.Search.{asked, IsAsked};
ghost use Rattle.unit_flow.specs.Widening.{Comes};

use crate::arrays::{Reached, follow, load_path, read_back};
use crate::ask::Ask;
use crate::search::search;
use std::alloc::{AllocError, Global};
use tomo_base::Graph;

/// The array of the paths.
pub fn load_paths(
    alloc: Global,
    count: u32,
    source: u32,
    paths: &[Vec<u32>],
) -> Result<Vec<Option<u32>>, AllocError>
    requires inside { All (λ p. All (λ y. y < count) p.items) paths.now }
    requires whole { All (λ p. 1 ≤ length p.items) paths.now }
    ensures size { IfOk result (λ xs. length xs.items ≡ count) }
    ensures loaded { IfOk result (λ xs. (v : ℕ) → entry_of xs.items v ≡ load_all source (λ _. None) (map (λ p. p.items) paths.now) v) }
{
    let mut before: Vec<Option<u32>> = vec![in alloc; None; count as usize]?;
    for path in paths {
        load_path(&mut before, source, &path[1..]);
    }
    Ok(before)
}

/// The target, and then the ends of the paths.
pub fn ends_of(alloc: Global, target: u32, paths: &[Vec<u32>]) -> Result<Vec<u32>, AllocError>
    requires { All (λ p. 1 ≤ length p.items) paths.now }
    ensures { IfOk result (λ ends. ends.items ≡ target ∷ map (λ p. last_of p.items) paths.now) }
{
    let mut ends: Vec<u32> = Vec::new(alloc);
    ends.push(target)?;
    for path in paths {
        ends.push(path[path.len() - 1])?;
    }
    Ok(ends)
}

/// What a search for one path more comes to: the new paths, or the marks of all nodes that it reached.
#[derive(Drop)]
pub enum Outcome {
    Wider(Vec<Vec<u32>>),
    Reached(Vec<bool>),
}

/// Searches for one path more: over links, and back over the paths. Time is linear in nodes and links.
pub fn widened(
    alloc: Global,
    g: &Graph,
    ask: &Ask,
    paths: &[Vec<u32>],
) -> Result<Outcome, AllocError>
    requires asked { IsAsked g.now ask.now }
    requires flow { IsFlow (asked g.now ask.now) (map (λ p. p.items) paths.now) }
    ensures { IfOk result (Comes (asked g.now ask.now) (map (λ p. p.items) paths.now)) }
{
    let count = g.nodes();
    let mut before = load_paths(alloc, count, ask.source, paths)?;
    let mut seen: Vec<bool> = vec![in alloc; false; count as usize]?;
    seen[ask.source as usize] = true;
    let mut queue: Vec<Reached> = Vec::with_capacity(alloc, count as usize)?;
    queue.push(Reached {
        node: ask.source,
        from: 0,
        via: ask.source,
    })?;
    let Some(hit) = search(g, ask, &before, &mut seen, &mut queue)? else {
        return Ok(Outcome::Reached(seen));
    };
    follow(&queue, hit.place, hit.target, &mut before);
    let ends = ends_of(alloc, hit.target, paths)?;
    Ok(Outcome::Wider(read_back(alloc, &before, ask.source, &ends)?))
}
