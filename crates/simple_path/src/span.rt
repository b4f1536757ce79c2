// Where a path stands among the nodes of all paths.

/// The places from `start` on, up to `end`, which is no longer one of them.
#[derive(Clone, Copy, Debug, PartialEq, Eq)]
pub struct Span {
    pub start: u32,
    pub end: u32,
}
