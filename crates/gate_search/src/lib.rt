//! Searches over free nodes that stop where a link leads to another node of a set, and go on from there.
#![tactic(auto)]

mod advancing;
mod gates;
mod search;
mod starts;

pub use advancing::{Advance, advance_from, free_at_first, hold_way};
pub use gates::Gate;
pub use search::GateSearch;
pub use starts::{add_free, take_free};
