//! Laws of printed and of read rows. Each is a function with nothing to run, whose clause is the law.
ghost use Rattle.rows.specs.Laws.{ReadsBack, FieldsFit, RowsFit, TextFits};

/// Rows that are printed are read back as they were, where each has a field and the first field of
/// the first row does not begin with a byte order mark.
pub fn printed_rows_are_read_back()
    ensures { ReadsBack }
{}

/// The fields of a text have no more bytes in all than the text.
pub fn fields_are_no_longer_than_their_text()
    ensures { FieldsFit }
{}

/// A text has no more rows than bytes, and each row has a field and at most one field more than
/// the text has bytes.
pub fn rows_are_no_more_than_bytes()
    ensures { RowsFit }
{}

/// The text of rows has no more bytes than their fields call for: a field as it stands, or in
/// quotes, and a comma or a line feed after each.
pub fn texts_are_no_longer_than_their_fields_call_for()
    ensures { TextFits }
{}
