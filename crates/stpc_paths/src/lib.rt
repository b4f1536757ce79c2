//! As many monitor paths as links, and a recipe for each link over them, from independent trees.
#![tactic(auto)]

mod lay;
mod names;
mod paths;
mod recipes;
mod roots;

pub use lay::stpc;
