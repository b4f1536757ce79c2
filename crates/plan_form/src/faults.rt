// Why rows are no plan.
ghost use Rattle.std.specs.Prelude.{◌≡◌};
ghost use Rattle.plan_form.specs.declared.faults.PlanFault.TheVariants.{NoMemory};

use thiserror::Error;
use tomo_base::NoMemory as WantOfMemory;

/// Why rows are no plan. Rows are numbered from 1.
#[derive(Clone, Copy, Debug, PartialEq, Eq, Error)]
pub enum PlanFault {
    /// Memory was wanted and could not be had.
    #[error("no memory")]
    NoMemory,
    /// The row has a first field that names no kind of row, or not the number of fields of its kind; or it is a plan row of
    /// another format, a row of a kind that the format of the first row has not, or a node row without a name of 1 to 64 bytes of
    /// UTF-8.
    #[error("row {0}: no row of a plan")]
    Record(u32),
    /// A field of the row is not the number, the list of nodes or the list of terms that it should be.
    #[error("row {0}: a number, node or term is misspelled")]
    Number(u32),
    /// The row stands where none of its kind may stand, or its own number is not that of its place.
    #[error("row {0}: out of order")]
    Order(u32),
    /// None of the rows, so many, is the end row.
    #[error("no end row among {0} rows")]
    Missing(u32),
    /// The row stands after the end row.
    #[error("row {0}: after the end row")]
    After(u32),
}

// Whatever tells want of memory becomes this fault.
impl<E: Into<WantOfMemory> + Drop> From<E> for PlanFault {
    ghost from_gives = { λ _ e. e ≡ NoMemory };

    fn from(_e: E) -> PlanFault {
        PlanFault::NoMemory
    }
}
