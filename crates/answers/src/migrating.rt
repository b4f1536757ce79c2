// Plans are carried over to the newest format.
ghost use Rattle.std.specs.Prelude.{IfOk};
ghost use Rattle.answers.specs.Migrating.{Migrates};

use crate::answer::Answer;
use crate::checked::Checked;
use crate::status::Status;
use plan_form::plan_rows;
use std::alloc::Global;
use tomo_base::NoMemory;

/// Prints a good plan in the newest format, whichever it had: the same names, links, monitors, pockets, paths and recipes, in the same
/// order. One pass over the plan.
pub fn migrate_plan(alloc: Global, checked: &Checked) -> Result<Answer, NoMemory>
    ensures { IfOk result (λ a. Migrates checked.now.plan a.status a.rows.closed) }
{
    Ok(Answer {
        status: Status::Done,
        rows: plan_rows(alloc, &checked.plan)?,
    })
}
