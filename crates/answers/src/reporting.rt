// Plans are checked, and what is found is reported.
ghost use Rattle.std.specs.Prelude.{◌≡◌, ◌∷◌, [], IfOk, codes, decimal};
ghost use Rattle.answers.specs.Refusals.{only, fault_part, fault_number};
ghost use Rattle.answers.specs.Reporting.{Reports};

use crate::answer::Answer;
use crate::checked::Planned;
use crate::status::Status;
use cert_check::{Fault, Report, check};
use itoa::Buffer;
use rows::Rows;
use std::alloc::Global;
use tomo_base::NoMemory;

// One row of three fields.
fn three_fields(alloc: Global, first: &str, second: &str, third: &str) -> Result<Rows, NoMemory>
    ensures { IfOk result (λ rows. rows ≡ only ((first.now ∷ second.now ∷ third.now ∷ []) ∷ [])) }
{
    let mut rows = Rows::new(alloc);
    rows.field(first.as_bytes())?;
    rows.field(second.as_bytes())?;
    rows.field(third.as_bytes())?;
    rows.close()?;
    Ok(rows)
}

// The row for a part of a plan that has a fault.
fn bad_part(alloc: Global, part: &str, number: u32) -> Result<Rows, NoMemory>
    ensures { IfOk result (λ rows. rows ≡ only ((codes "bad" ∷ part.now ∷ decimal number ∷ []) ∷ [])) }
{
    let mut digits = Buffer::new();
    three_fields(alloc, "bad", part, digits.format(number))
}

// The row for a fault.
fn bad_row(alloc: Global, fault: Fault) -> Result<Rows, NoMemory>
    ensures { IfOk result (λ rows. rows ≡ only ((codes "bad" ∷ fault_part fault ∷ decimal (fault_number fault) ∷ []) ∷ [])) }
{
    match fault {
        Fault::Names(name) => bad_part(alloc, "names", name),
        Fault::Links(link) => bad_part(alloc, "links", link),
        Fault::Must(forced) => bad_part(alloc, "must", forced),
        Fault::Not(barred) => bad_part(alloc, "not", barred),
        Fault::Monitor(monitor) => bad_part(alloc, "monitor", monitor),
        Fault::Pocket(pocket) => bad_part(alloc, "pocket", pocket),
        Fault::Path(path) => bad_part(alloc, "path", path),
        Fault::Recipe(recipe) => bad_part(alloc, "recipe", recipe),
    }
}

// The row for a good plan.
fn good_row(alloc: Global, monitors: u32, bound: u32) -> Result<Rows, NoMemory>
    ensures { IfOk result (λ rows. rows ≡ only ((codes "good" ∷ decimal monitors ∷ decimal bound ∷ []) ∷ [])) }
{
    let mut count = Buffer::new();
    let mut most = Buffer::new();
    three_fields(alloc, "good", count.format(monitors), most.format(bound))
}

/// Checks a plan.
pub fn check_plan(alloc: Global, planned: &Planned) -> Result<Answer, NoMemory>
    ensures { IfOk result (λ a. Reports planned.now.topology planned.now.plan a.status a.rows.closed) }
{
    match check(alloc, &planned.topology, &planned.plan)? {
        Report::Good { monitors, bound } => Ok(Answer {
            status: Status::Done,
            rows: good_row(alloc, monitors, bound)?,
        }),
        Report::Bad(fault) => Ok(Answer {
            status: Status::Negative,
            rows: bad_row(alloc, fault)?,
        }),
    }
}
