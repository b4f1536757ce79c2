//! The lowest set of monitors.
#![tactic(auto)]

mod lowest;

pub use lowest::{nodes_outside, place, place_with};
