//! Plans: what stands in one, how it is made of paths and recipes, and its rows.
#![tactic(auto)]

mod adding;
mod arranging;
mod build;
mod copies;
mod directions;
mod faults;
mod kinds;
pub mod laws;
mod lists;
mod numerals;
mod order;
mod plan;
mod read;
mod sums;
mod write;

pub use arranging::{Arranged, arrange};
pub use faults::PlanFault;
pub use numerals::number;
pub use plan::Plan;
pub use read::read_plan;
pub use write::{add_counted, add_list, add_numbered, add_row, numbers_joined, plan_rows};
