// Why rows are no rounds.
ghost use Rattle.std.specs.Prelude.{◌≡◌};
ghost use Rattle.round_reader.specs.declared.faults.RoundFault.TheVariants.{NoMemory};

use thiserror::Error;
use tomo_base::NoMemory as WantOfMemory;

/// Why rows are no rounds. Rows and fields are numbered from 1.
#[derive(Clone, Copy, Debug, PartialEq, Eq, Error)]
pub enum RoundFault {
    /// Memory was wanted and could not be had.
    #[error("no memory")]
    NoMemory,
    /// The row has not as many fields as there are paths.
    #[error("row {0}: not one field for each path")]
    Width(u32),
    /// The field of the row is no sum: it has not 1 to 20 digits between blanks, or is more than `SUM_LIMIT`.
    /// The message takes no constant, so the number stands in it.
    #[error("row {0}, field {1}: no number of at most 2 * 10^18")]
    Number(u32, u32),
}

// Whatever tells want of memory becomes this fault.
impl<E: Into<WantOfMemory> + Drop> From<E> for RoundFault {
    ghost from_gives = { λ _ e. e ≡ NoMemory };

    fn from(_e: E) -> RoundFault {
        RoundFault::NoMemory
    }
}
