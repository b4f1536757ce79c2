// A list of rows.
ghost use Rattle.std.specs.Prelude.{◌≡◌, ◌<◌, ◌+◌, ◌^◌, ◌++◌, [], ◌∷◌, length, OnOk, OnErr, All, slice_index_or};
ghost use Rattle.rows.specs.Rows.{IsFullRow};

use crate::places::{field_at, width_at};
use std::alloc::Global;
use std::marker::Model;
use tomo_base::NoMemory;

/// Closed rows, and the fields of the open row, which is not closed yet. A closed row has at least
/// one field. All counts stay below 2^32.
#[derive(Drop)]
pub struct Rows {
    // the bytes of all fields, one field after the other
    bytes: Vec<u8>,
    // where each field ends in the bytes
    ends: Vec<usize>,
    // where each closed row ends in the fields
    row_ends: Vec<usize>,
}

impl Model for Rows {
    ghost use Rattle.rows.specs.Rows.{RowList, IsCountable};
    ghost use Rattle.rows.specs.Layout.{view_of, IsLaidOut};

    ghost Value = { RowList };

    ghost view = { λ a. view_of a.bytes.items a.ends.items a.row_ends.items };

    ghost invariant = { λ a. IsLaidOut a.bytes.items a.ends.items a.row_ends.items
        × IsCountable (view_of a.bytes.items a.ends.items a.row_ends.items) };
}

impl Rows {
    /// No rows, and no field in the open row. It takes no memory.
    pub fn new(alloc: Global) -> Rows
        ensures { result ≡ record { closed = []; current = [] } }
    {
        Rows {
            bytes: Vec::new(alloc),
            ends: Vec::new(alloc),
            row_ends: Vec::new(alloc),
        }
    }

    /// Adds a field at the end of the open row.
    pub fn field(&mut self, bytes: &[u8]) -> Result<(), NoMemory>
        requires { length self.old.current + 1 < 2 ^ 32 }
        ensures ok { OnOk result (self.new ≡ record self.old {
          current = self.old.current ++ bytes.now ∷ [];
        }) }
        ensures err { OnErr result (self.new ≡ self.old) }
    {
        self.ends.reserve(1)?;
        self.bytes.extend_from_slice(bytes)?;
        self.ends.push(self.bytes.len())?;
        Ok(())
    }

    /// Ends the open row, which has at least one field. The next open row has none.
    pub fn close(&mut self) -> Result<(), NoMemory>
        requires filled { 0 < length self.old.current }
        requires room { length self.old.closed + 1 < 2 ^ 32 }
        ensures ok { OnOk result (self.new ≡ record {
          closed = self.old.closed ++ self.old.current ∷ [];
          current = [];
        }) }
        ensures err { OnErr result (self.new ≡ self.old) }
    {
        self.row_ends.push(self.ends.len())?;
        Ok(())
    }

    /// How many closed rows there are. It takes no memory.
    pub fn len(&self) -> u32
        ensures len { result ≡ length self.now.closed }
        ensures each { All IsFullRow self.now.closed }
    {
        self.row_ends.len() as u32
    }

    /// How many fields the closed row with this number has, at least one. Rows are counted from 0.
    /// It takes no memory.
    pub fn width(&self, row: u32) -> u32
        requires { row < length self.now.closed }
        ensures width { result ≡ length (slice_index_or self.now.closed row []) }
        ensures filled { 0 < result }
    {
        width_at(&self.bytes, &self.ends, &self.row_ends, row as usize) as u32
    }

    /// A field of the closed row with this number. Rows and fields are counted from 0. It takes no
    /// memory.
    pub fn at(&self, row: u32, field: u32) -> &[u8]
        requires row { row < length self.now.closed }
        requires field { field < length (slice_index_or self.now.closed row []) }
        ensures { result.now ≡ slice_index_or (slice_index_or self.now.closed row []) field [] }
    {
        field_at(
            &self.bytes,
            &self.ends,
            &self.row_ends,
            row as usize,
            field as usize,
        )
    }
}
