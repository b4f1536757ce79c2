// Rounds, read from rows.
ghost use Rattle.std.specs.Prelude.{◌≡◌, ◌<◌, ◌++◌, length, List, ℕ, IfOk, IfErr, OnOk, slice_index_or, []};
ghost use Rattle.round_reader.specs.Sums.{AreRounds, IsRound};
ghost use Rattle.round_reader.specs.Faults.{IsRowFault, IsFirstRoundFault};

use crate::faults::RoundFault;
use crate::rounds::Rounds;
use crate::sums::sum_in;
use rows::Rows;
use std::alloc::Global;

// Adds the sums of a row, or answers its first fault.
fn add_row(sums: &mut Vec<u64>, paths: u32, rows: &Rows, row: u32) -> Result<(), RoundFault>
    requires { row < length rows.now.closed }
    ensures ok { OnOk result ((new : List ℕ) × IsRound paths (slice_index_or rows.now.closed row []) new × (sums.new.items ≡ sums.old.items ++ new)) }
    ensures fault { IfErr result (IsRowFault paths (slice_index_or rows.now.closed row []) row) }
{
    // A row's number fits 32 bits, as their count does.
    let _count = rows.len();
    if rows.width(row) != paths {
        return Err(RoundFault::Width(row + 1));
    }
    for field in 0..paths {
        let Some(sum) = sum_in(rows.at(row, field)) else {
            return Err(RoundFault::Number(row + 1, field + 1));
        };
        sums.push(sum)?;
    }
    Ok(())
}

/// Reads rounds, one in each row, with one sum for each of the paths.
///
/// A sum is a field that, without the spaces and tabs at its ends, has 1 to 20 digits and a value of at most `SUM_LIMIT`. `Width` is the
/// first row with more or fewer fields than there are paths, or `Number` the first field of a row that is no sum, whichever row
/// comes first. Rows and fields are numbered from 1.
pub fn read_rounds(alloc: Global, paths: u32, rows: &Rows) -> Result<Rounds, RoundFault>
    ensures rounds { IfOk result (AreRounds paths rows.now.closed) }
    ensures fault { IfErr result (IsFirstRoundFault paths rows.now.closed) }
{
    let mut sums = Vec::new(alloc);
    for row in 0..rows.len() {
        add_row(&mut sums, paths, rows, row)?;
    }
    Ok(Rounds {
        width: paths,
        count: rows.len(),
        sums,
    })
}
