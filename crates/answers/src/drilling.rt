// Drills are made.
ghost use Rattle.std.specs.Prelude.{◌≡◌, true, IfOk};
ghost use Rattle.answers.specs.Drilling.{fit, Drills};

use crate::answer::Answer;
use crate::status::Status;
use drill::drill;
use std::alloc::Global;
use tomo_base::NoMemory;

/// The numbers of a drill.
#[derive(Clone, Copy, Debug, PartialEq, Eq)]
pub struct DrillNumbers {
    pub seed: u32,
    pub nodes: u32,
    pub links: u32,
}

/// Makes a drill.
pub fn tell_drill(alloc: Global, numbers: DrillNumbers) -> Result<Answer, NoMemory>
    requires { fit numbers ≡ true }
    ensures { IfOk result (λ a. Drills numbers a.status a.rows.closed) }
{
    Ok(Answer {
        status: Status::Done,
        rows: drill(alloc, numbers.seed, numbers.nodes, numbers.links)?,
    })
}
