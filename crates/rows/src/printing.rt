// The text of rows.
ghost use Rattle.std.specs.Prelude.{◌≡◌, ◌<◌, [], length, IfOk, OnOk, Some, slice_index_or};
ghost use Rattle.std.specs.Io.KnownBytes.{Appends};
ghost use Rattle.csv.specs.Writing.{row_text, text_written};
ghost use Rattle.rows.specs.Rows.{text_of, writer as settings};
ghost use Rattle.rows.specs.Writing.{IsBetweenRows};

use crate::Rows;
use csv::{Writer, WriterBuilder};
use std::alloc::Global;
use tomo_base::NoMemory;

// Writes a row and its end.
fn write_row(writer: &mut Writer<Vec<u8>>, rows: &Rows, row: u32) -> Result<(), NoMemory>
    requires row { row < length rows.now.closed }
    requires between { IsBetweenRows writer.old }
    ensures between { OnOk result (IsBetweenRows writer.new) }
    ensures text { OnOk result (Appends
        (text_written (λ v. Some v.items) writer.old) (text_written (λ v. Some v.items) writer.new)
        (row_text settings (slice_index_or rows.now.closed row []))) }
{
    for field in 0..rows.width(row) {
        match writer.write_field(rows.at(row, field)) {
            Ok(()) => {}
            Err(_) => return Err(NoMemory),
        }
    }
    match writer.end_record() {
        Ok(()) => Ok(()),
        Err(_) => Err(NoMemory),
    }
}

/// The text of the closed rows: their fields parted by commas, each row ended by a line feed. A
/// field that has a comma, a quote or a line's end stands in quotes.
pub fn print_rows(alloc: Global, rows: &Rows) -> Result<Vec<u8>, NoMemory>
    ensures { IfOk result (λ text. text.items ≡ text_of rows.now.closed) }
{
    let mut writer = WriterBuilder::new()
        .flexible(true)
        .from_writer(Vec::new(alloc));
    for row in 0..rows.len() {
        write_row(&mut writer, rows, row)?;
    }
    match writer.into_inner() {
        Ok(text) => Ok(text),
        Err(_) => Err(NoMemory),
    }
}
