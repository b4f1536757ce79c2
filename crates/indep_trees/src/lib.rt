//! Independent trees of a graph and its monitors.
#![tactic(auto)]

mod counting;
mod kept;
mod placing;
mod shortening;

pub use kept::{IndepTrees, trees};
