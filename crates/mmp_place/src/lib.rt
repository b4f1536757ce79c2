//! The placement rule: the lowest set of monitors, by the parts of a graph.
#![tactic(auto)]

mod filling;
pub mod laws;
mod rule;

pub use rule::mmp;
