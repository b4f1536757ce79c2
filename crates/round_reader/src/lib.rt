//! Rounds, read from rows: one sum for each path in each row.
#![tactic(auto)]

mod faults;
mod reading;
mod rounds;
mod sums;

pub use faults::RoundFault;
pub use reading::read_rounds;
pub use rounds::Rounds;
