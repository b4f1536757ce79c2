// Monitors are judged.
ghost use Rattle.std.specs.Prelude.{◌≡◌, ◌∷◌, [], IfOk};
ghost use Rattle.tomo_base.specs.Sets.{has};
ghost use Rattle.judge.specs.Verdict.{IsFoundBad};
ghost use Rattle.answers.specs.Refusals.{only};
ghost use Rattle.answers.specs.Judging.{yes_row as one_yes, Judges, TellsBad};

use crate::answer::Answer;
use crate::naming::naming_row;
use crate::placed::Placed;
use crate::status::Status;
use itoa::Buffer;
use judge::{Verdict, judge};
use rows::Rows;
use std::alloc::Global;
use tomo_base::{NoMemory, NodeSet};

// The row for monitors that identify.
fn yes_row(alloc: Global, count: u32) -> Result<Rows, NoMemory>
    ensures { IfOk result (λ rows. rows ≡ only (one_yes count ∷ [])) }
{
    let mut digits = Buffer::new();
    let mut rows = Rows::new(alloc);
    rows.field(b"yes")?;
    rows.field(digits.format(count).as_bytes())?;
    rows.close()?;
    Ok(rows)
}

/// The answer where monitors do not identify every link.
pub fn tell_bad(alloc: Global, placed: &Placed, nodes: &NodeSet) -> Result<Answer, NoMemory>
    requires { IsFoundBad placed.now.topology.graph (has placed.now.monitors) nodes.now }
    ensures { IfOk result (λ a. TellsBad placed.now.topology placed.now.monitors a.status a.rows.closed) }
{
    Ok(Answer {
        status: Status::Negative,
        rows: naming_row(alloc, "bad", &placed.topology, nodes)?,
    })
}

/// Judges monitors.
pub fn judge_monitors(alloc: Global, placed: &Placed) -> Result<Answer, NoMemory>
    ensures { IfOk result (λ a. Judges placed.now.topology placed.now.monitors a.status a.rows.closed) }
{
    match judge(alloc, placed.topology.graph(), &placed.monitors)? {
        Verdict::Yes => Ok(Answer {
            status: Status::Done,
            rows: yes_row(alloc, placed.monitors.len())?,
        }),
        Verdict::Bad(nodes) => tell_bad(alloc, placed, &nodes),
    }
}
