//! Ear orders of graphs that stay connected without any two nodes.
#![tactic(auto)]

mod candidates;
mod easy;
mod marks;
mod near;
mod orders;
mod parts;
mod paths;
mod sparing;
mod turns;

pub use orders::{EarOrder, Step, order};
