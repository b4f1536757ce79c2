// How a run ends.

/// How a run ended.
#[derive(Clone, Copy, Debug, PartialEq, Eq)]
pub enum Status {
    Done,
    Negative,
    Usage,
    BadInput,
    ReadFault,
    WriteFault,
    NoMemory,
}
