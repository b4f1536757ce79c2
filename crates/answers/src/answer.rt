// What a command answers.
use crate::status::Status;
use rows::Rows;

/// A status, and the rows that it comes with.
#[derive(Drop)]
pub struct Answer {
    pub status: Status,
    pub rows: Rows,
}
