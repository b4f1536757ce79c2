// The kinds of rows of a plan.
ghost use Rattle.std.specs.Prelude.{◌≡◌, ◌<◌, length, bytes_eq, decimal};
ghost use Rattle.topology.specs.Names.{row_at};
ghost use Rattle.plan_form.specs.Kinds.{width, since};
ghost use Rattle.plan_form.specs.Kinds as spec;
ghost use Rattle.plan_form.specs.Reading as reading;

use crate::numerals::number;
use rows::Rows;
use topology::as_name;

/// The number of the format that is printed.
pub(crate) const NEWEST_FORMAT: u32 = 2;

/// The number of the older format, which is still read.
pub(crate) const OLDEST_FORMAT: u32 = 1;

/// A kind of row, in the order of the table.
#[derive(Clone, Copy, Debug, PartialEq, Eq, PartialOrd, Ord)]
pub(crate) enum Kind {
    Plan,
    Node,
    Link,
    Must,
    Not,
    Monitor,
    Pocket,
    Path,
    Recipe,
    End,
}

// The kind that a word names.
fn kind_named(word: &[u8]) -> Option<Kind>
    ensures { result ≡ spec.kind_named word.now }
{
    match word {
        b"plan" => Some(Kind::Plan),
        b"node" => Some(Kind::Node),
        b"link" => Some(Kind::Link),
        b"must" => Some(Kind::Must),
        b"not" => Some(Kind::Not),
        b"monitor" => Some(Kind::Monitor),
        b"pocket" => Some(Kind::Pocket),
        b"path" => Some(Kind::Path),
        b"recipe" => Some(Kind::Recipe),
        b"end" => Some(Kind::End),
        _ => None,
    }
}

impl Kind {
    // How many fields a row of the kind has.
    fn width(self) -> u32
        ensures { result ≡ width self }
    {
        match self {
            Kind::Plan => 2,
            Kind::Node => 3,
            Kind::Link => 4,
            Kind::Must => 2,
            Kind::Not => 2,
            Kind::Monitor => 2,
            Kind::Pocket => 4,
            Kind::Path => 3,
            Kind::Recipe => 3,
            Kind::End => 1,
        }
    }

    // The first format that has rows of the kind.
    fn since(self) -> u32
        ensures { result ≡ since self }
    {
        match self {
            Kind::Must => NEWEST_FORMAT,
            Kind::Not => NEWEST_FORMAT,
            _ => OLDEST_FORMAT,
        }
    }
}

// Whether a text is that of a number.
fn spells(text: &[u8], n: u32) -> bool
    ensures { result ≡ bytes_eq text.now (decimal n) }
{
    match number(text) {
        Some(m) => m == n,
        None => false,
    }
}

// Whether a text is the number of a format.
fn is_format(text: &[u8]) -> bool
    ensures { result ≡ spec.is_format text.now }
{
    spells(text, OLDEST_FORMAT) || spells(text, NEWEST_FORMAT)
}

// Whether a row has the fields of a kind.
fn is_record(rows: &Rows, row: u32, kind: Kind) -> bool
    requires { row < length rows.now.closed }
    ensures { result ≡ spec.is_record (row_at rows.now.closed row) kind }
{
    if rows.width(row) != kind.width() {
        return false;
    }
    match kind {
        Kind::Plan => is_format(rows.at(row, 1)),
        Kind::Node => as_name(rows.at(row, 2)).is_some(),
        _ => true,
    }
}

/// The kind of a row in a format, where the format has it and the row has the fields of the kind that its first field names.
pub(crate) fn kind_of(rows: &Rows, row: u32, format: u32) -> Option<Kind>
    requires row { row < length rows.now.closed }
    requires filled { 0 < length (row_at rows.now.closed row) }
    ensures { result ≡ spec.row_kind format (row_at rows.now.closed row) }
{
    let kind = kind_named(rows.at(row, 0))?;
    if kind.since() <= format && is_record(rows, row, kind) {
        Some(kind)
    } else {
        None
    }
}

// Whether a row is the plan row of the newest format.
fn is_newest(rows: &Rows, row: u32) -> bool
    requires row { row < length rows.now.closed }
    requires filled { 0 < length (row_at rows.now.closed row) }
    ensures { result ≡ reading.is_newest (row_at rows.now.closed row) }
{
    match kind_of(rows, row, NEWEST_FORMAT) {
        Some(Kind::Plan) => spells(rows.at(row, 1), NEWEST_FORMAT),
        _ => false,
    }
}

/// The format of rows: the newest where the first is its plan row, else the oldest.
pub(crate) fn format_of(rows: &Rows) -> u32
    ensures { result ≡ reading.format_of rows.now.closed }
{
    if rows.len() > 0 && is_newest(rows, 0) {
        NEWEST_FORMAT
    } else {
        OLDEST_FORMAT
    }
}

/// Whether a row of a kind may follow one of the kind `last`.
pub(crate) fn may_follow(last: Option<Kind>, kind: Kind) -> bool
    ensures { result ≡ reading.may_follow last kind }
{
    match last {
        None => kind == Kind::Plan,
        Some(last) => kind != Kind::Plan && last <= kind,
    }
}

/// Whether the kind `last` is that of the end row.
pub(crate) fn is_end(last: Option<Kind>) -> bool
    ensures { result ≡ reading.is_kind last Kind.End }
{
    last == Some(Kind::End)
}
