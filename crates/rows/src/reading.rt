// Rows of a text.
ghost use Rattle.std.specs.Prelude.{◌≡◌, ◌<◌, ◌+◌, ◌^◌, ◌++◌, [], ◌∷◌, length, OnOk, IfOk};
ghost use Rattle.csv.specs.Records.{fields_of};
ghost use Rattle.rows.specs.Rows.{rows_of};

use crate::Rows;
use csv::{ByteRecord, ErrorKind, ReaderBuilder};
use std::alloc::Global;
use tomo_base::NoMemory;

// Adds a record as a closed row.
fn add_record(rows: &mut Rows, row: &ByteRecord) -> Result<(), NoMemory>
    requires none { rows.old.current ≡ [] }
    requires filled { 0 < length (fields_of row.now) }
    requires fits { length (fields_of row.now) < 2 ^ 32 }
    requires room { length rows.old.closed + 1 < 2 ^ 32 }
    ensures { OnOk result (rows.new ≡ record {
      closed = rows.old.closed ++ fields_of row.now ∷ [];
      current = [];
    }) }
{
    for field in row {
        rows.field(field)?;
    }
    rows.close()
}

/// The records of a text of comma-separated values, after one byte order mark if it begins with
/// one. Rows may have different lengths, the first is a row as the others are, and fields are kept
/// as they stand. A blank line gives no row.
pub fn read_rows(alloc: Global, bytes: &[u8]) -> Result<Rows, NoMemory>
    requires { length bytes.now < 2 ^ 31 }
    ensures { IfOk result (λ rows. rows ≡ record { closed = rows_of bytes.now; current = [] }) }
{
    let reader = ReaderBuilder::new()
        .has_headers(false)
        .flexible(true)
        .from_reader(alloc, bytes);
    let mut rows = Rows::new(alloc);
    for row in reader.into_byte_records() {
        match row {
            Ok(row) => add_record(&mut rows, &row)?,
            Err(e) => match e.kind() {
                ErrorKind::Io(_) | ErrorKind::OutOfMemory => return Err(NoMemory),
                _ => unreachable!(),
            },
        }
    }
    Ok(rows)
}
