// Where the rows and the fields of a list of rows stand in its bytes.
ghost use Rattle.std.specs.Prelude.{◌≡◌, ◌+◌, ◌<◌, ◌≤◌, [], ◌∷◌, length, slice_index, slice_index_or};
ghost use Rattle.rows.specs.Layout.{view_of, IsLaidOut};

// Where the part at a place starts.
fn start_at(ends: &[usize], place: usize) -> usize
    requires { place ≤ length ends.now }
    ensures { result ≡ slice_index (0 ∷ ends.now) place }
{
    if place == 0 { 0 } else { ends[place - 1] }
}

// How many fields a row has.
pub fn width_at(_bytes: &[u8], ends: &[usize], row_ends: &[usize], row: usize) -> usize
    requires cut { IsLaidOut _bytes.now ends.now row_ends.now }
    requires row { row < length row_ends.now }
    ensures { result ≡ length (slice_index_or
        (view_of _bytes.now ends.now row_ends.now).closed row []) }
{
    let start = start_at(row_ends, row);
    let end = row_ends[row];
    end - start
}

// The bytes of a field of a row.
pub fn field_at<'a>(
    bytes: &'a [u8],
    ends: &[usize],
    row_ends: &[usize],
    row: usize,
    field: usize,
) -> &'a [u8]
    requires cut { IsLaidOut bytes.now ends.now row_ends.now }
    requires row { row < length row_ends.now }
    requires field { slice_index (0 ∷ row_ends.now) row + field < slice_index row_ends.now row }
    ensures { result.now ≡ slice_index_or (slice_index_or
        (view_of bytes.now ends.now row_ends.now).closed row []) field [] }
{
    let limit = row_ends[row];
    prove!(limit <= ends.len());
    let place = start_at(row_ends, row) + field;
    let start = start_at(ends, place);
    let end = ends[place];
    prove!(start <= end);
    prove!(end <= bytes.len());
    &bytes[start..end]
}
