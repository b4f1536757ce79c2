//! Whether a plan is right for a topology.
#![tactic(auto)]

mod checking;
mod choice;
mod counts;
mod first_parts;
pub mod laws;
mod paths;
mod pockets;
mod recipes;
mod report;
mod steps;

pub use checking::check;
pub use report::{Fault, Report};
