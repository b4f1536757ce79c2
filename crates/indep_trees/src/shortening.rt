// Parents from which fewer steps lead to a monitor.
ghost use Rattle.std.specs.Prelude.{ℕ, ◌≡◌, ◌⊎◌, ◌<◌, ◌≤◌, ◌-◌, ◌^◌, length, IfOk, OnOk, true};
ghost use Rattle.tomo_base.specs.Search.{entry_at};
ghost use Rattle.indep_trees.specs.Shortening.{IsLow, IsHigh, IsLater, AreChosen};

use crate::placing::Placing;
use ear_order::EarOrder;
use std::alloc::Global;
use tomo_base::{Graph, NoMemory, NodeSet};

// Whether w has a lower number than v, and is on an ear that is not later. Nodes without a number are not.
fn is_below(numbers: &[u32], ears: &[u32], v: u32, w: u32) -> bool
    requires node { v < length numbers.now }
    requires ears { length numbers.now ≤ length ears.now }
    ensures number { result ≡ true → entry_at numbers.now w < entry_at numbers.now v }
    ensures ear { result ≡ true → entry_at ears.now w ≤ entry_at ears.now v }
{
    let (v, w) = (v as usize, w as usize);
    w < numbers.len() && numbers[w] < numbers[v] && ears[w] <= ears[v]
}

// How many steps lead on from a node, as far as is known.
fn steps_from(steps: &[u32], v: u32) -> u32 {
    steps.get(v as usize).copied().unwrap_or(u32::MAX)
}

// The neighbour of v below it from which the fewest steps lead on, or `old`.
fn nearest(g: &Graph, numbers: &[u32], ears: &[u32], steps: &[u32], v: u32, old: u32) -> u32
    requires node { v < g.now.nodes }
    requires numbers { length numbers.now ≡ g.now.nodes }
    requires ears { length numbers.now ≤ length ears.now }
    ensures { (result ≡ old) ⊎ IsLow g.now (entry_at numbers.now) (entry_at ears.now) v result }
{
    let _nodes = g.nodes();
    let mut best = old;
    for hop in g.hops(v) {
        let w = hop.node;
        if is_below(numbers, ears, v, w) && steps_from(steps, w) < steps_from(steps, best) {
            best = w;
        }
    }
    best
}

// Gives each node of the list that is no monitor, one after the other, the neighbour below it from which the fewest steps lead to a monitor,
// where they are fewer than from the parent that it has.
fn shorten(
    alloc: Global,
    g: &Graph,
    m: &NodeSet,
    numbers: &[u32],
    ears: &[u32],
    nodes: &[u32],
    parents: &mut Vec<u32>,
) -> Result<(), NoMemory>
    requires numbers { length numbers.now ≡ g.now.nodes }
    requires ears { length numbers.now ≤ length ears.now }
    requires parents { length numbers.now ≤ length parents.old.items }
    ensures size { OnOk result (length parents.new.items ≡ length parents.old.items) }
    ensures chosen { OnOk result (AreChosen (IsLow g.now (entry_at numbers.now) (entry_at ears.now)) parents.old.items parents.new.items) }
{
    let mut steps = vec![in alloc; 0; numbers.len()]?;
    for &v in nodes {
        if (v as usize) < numbers.len() && !m.has(v) {
            let best = nearest(g, numbers, ears, &steps, v, parents[v as usize]);
            parents[v as usize] = best;
            steps[v as usize] = steps_from(&steps, best).saturating_add(1);
        }
    }
    Ok(())
}

// The numbers of the first n nodes, the other way round: the higher one was, the lower it is.
fn flipped(alloc: Global, n: u32, numbers: &[u32]) -> Result<Vec<u32>, NoMemory>
    requires { n ≤ length numbers.now }
    ensures size { IfOk result (λ flipped. length flipped.items ≡ n) }
    ensures each { IfOk result (λ flipped. (v : ℕ) → v < n → entry_at flipped.items v ≡ 2 ^ 32 - 1 - entry_at numbers.now v) }
{
    let mut flipped = Vec::new(alloc);
    for v in 0..n {
        flipped.push(u32::MAX - numbers[v as usize])?;
    }
    Ok(flipped)
}

// The nodes of all ears, those of the last ear first.
fn last_first(alloc: Global, ears: &EarOrder) -> Result<Vec<u32>, NoMemory> {
    let mut nodes = Vec::new(alloc);
    for i in 0..ears.len() {
        let ear = ears.ear(i);
        if let Some(inner) = ear.get(1..ear.len().saturating_sub(1)) {
            nodes.extend_from_slice(inner)?;
        }
    }
    nodes.reverse();
    Ok(nodes)
}

/// Gives each node that is no monitor the neighbours for parents from which the fewest steps lead to a monitor: one of those with lower
/// numbers, one of those with higher numbers, both on no later ear, and one of those on later ears. It costs three looks at each link.
pub fn shorten_all(
    alloc: Global,
    g: &Graph,
    m: &NodeSet,
    ears: &EarOrder,
    numbers: &[u32],
    places: &mut Placing,
    third: &mut Vec<u32>,
) -> Result<(), NoMemory>
    requires numbers { length numbers.now ≡ g.now.nodes }
    requires low { g.now.nodes ≤ length places.old.low.items }
    requires high { g.now.nodes ≤ length places.old.high.items }
    requires ears { g.now.nodes ≤ length places.old.ears.items }
    requires third { g.now.nodes ≤ length third.old.items }
    ensures low_size { OnOk result (length places.new.low.items ≡ length places.old.low.items) }
    ensures high_size { OnOk result (length places.new.high.items ≡ length places.old.high.items) }
    ensures third_size { OnOk result (length third.new.items ≡ length third.old.items) }
    ensures low { OnOk result (AreChosen (IsLow g.now (entry_at numbers.now) (entry_at places.old.ears.items)) places.old.low.items places.new.low.items) }
    ensures high { OnOk result (AreChosen (IsHigh g.now (entry_at numbers.now) (entry_at places.old.ears.items)) places.old.high.items places.new.high.items) }
    ensures third { OnOk result (AreChosen (IsLater g.now (entry_at places.old.ears.items)) third.old.items third.new.items) }
{
    let n = g.nodes();
    shorten(
        alloc,
        g,
        m,
        numbers,
        &places.ears,
        &places.order,
        &mut places.low,
    )?;
    let down = flipped(alloc, n, numbers)?;
    places.order.reverse();
    shorten(
        alloc,
        g,
        m,
        &down,
        &places.ears,
        &places.order,
        &mut places.high,
    )?;
    let late = flipped(alloc, n, &places.ears)?;
    let nodes = last_first(alloc, ears)?;
    shorten(alloc, g, m, &late, &late, &nodes, third)
}
