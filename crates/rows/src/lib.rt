//! Rows of fields: read from a text of comma-separated values, and printed as one.
#![tactic(auto)]

pub mod laws;
mod list;
mod places;
mod printing;
mod reading;
mod trim;

pub use list::Rows;
pub use printing::print_rows;
pub use reading::read_rows;
pub use trim::trimmed;
