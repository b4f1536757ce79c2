// Drawn delays, and sums of delays.
ghost use Rattle.std.specs.Prelude.{◌≡◌, ◌≤◌, ◌^◌, length, All, IfOk, sum};
ghost use Rattle.tomo_base.specs.Limits.{summand_limit};
ghost use Rattle.drill.specs.Draws.{draws as drawn, drawn_delay_limit};
ghost use Rattle.drill.specs.Drill as spec;
ghost use Rattle.link_solver.specs.Verdict.{IsPath};

use crate::draws::Draws;
use crate::limits::DRAWN_DELAY_LIMIT;
use simple_path::{PathPool, sum_along};
use std::alloc::Global;
use tomo_base::{Graph, NoMemory};

/// So many delays, drawn one after the other.
pub(crate) fn draw_delays(
    alloc: Global,
    draws: &mut Draws,
    count: u32,
) -> Result<Vec<u64>, NoMemory>
    ensures { IfOk result (λ delays. delays.items ≡ drawn draws.old drawn_delay_limit count) }
{
    let mut delays = Vec::new(alloc);
    for _ in 0..count {
        delays.push(u64::from(draws.draw(DRAWN_DELAY_LIMIT)))?;
    }
    Ok(delays)
}

/// The sums of the delays along the paths.
pub(crate) fn sums_along(
    alloc: Global,
    g: &Graph,
    paths: &PathPool,
    delays: &[u64],
) -> Result<Vec<u64>, NoMemory>
    requires paths { All (IsPath g.now) paths.now }
    requires one_each { length delays.now ≡ length g.now.links }
    requires small { All (λ d. d ≤ summand_limit) delays.now }
    ensures { IfOk result (λ sums. sums.items ≡ spec.sums_along g.now delays.now paths.now) }
{
    let mut sums = Vec::new(alloc);
    for i in 0..paths.len() {
        sums.push(sum_along(g, paths.path(i), delays))?;
    }
    Ok(sums)
}

/// The sum of the numbers.
pub(crate) fn total(numbers: &[u64]) -> u128
    ensures { result ≡ sum numbers.now }
{
    let mut sum = 0;
    for &number in numbers {
        sum += u128::from(number);
    }
    sum
}
