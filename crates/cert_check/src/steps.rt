// The links that paths run over, each looked up once.
ghost use Rattle.std.specs.Prelude.{All, IfOk};
ghost use Rattle.tomo_base.specs.Walks.{IsWalk};
ghost use Rattle.cert_check.specs.Counting.{AreSteps, AreStepsOfAll};

use simple_path::PathPool;
use std::alloc::Global;
use tomo_base::{Graph, NoMemory};

// The numbers of the links that the path runs over.
fn steps_of(alloc: Global, g: &Graph, path: &[u32]) -> Result<Vec<u32>, NoMemory>
    requires walk { IsWalk g.now path.now }
    ensures { IfOk result (λ steps. AreSteps g.now.links path.now steps.items) }
{
    let _nodes = g.nodes();
    let mut steps = Vec::new(alloc);
    steps.reserve(path.len())?;
    for i in 1..path.len() {
        match g.between(path[i - 1], path[i]) {
            Some(link) => steps.push(link)?,
            None => unreachable!(),
        }
    }
    Ok(steps)
}

// The same of each path.
pub fn steps_of_all(alloc: Global, g: &Graph, paths: &PathPool) -> Result<Vec<Vec<u32>>, NoMemory>
    requires walks { All (IsWalk g.now) paths.now }
    ensures { IfOk result (λ all. AreStepsOfAll g.now.links paths.now all.items) }
{
    let mut all = Vec::new(alloc);
    for i in 0..paths.len() {
        all.push(steps_of(alloc, g, paths.path(i))?)?;
    }
    Ok(all)
}
