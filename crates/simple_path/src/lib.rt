//! Paths over the nodes of a graph, pools of paths, and recipes: signed sums of paths.
#![tactic(auto)]

mod monitor_path;
mod path_pool;
mod recipe;
mod span;
mod sums;

pub use monitor_path::{ends_in, is_monitor_path, is_walk};
pub use path_pool::PathPool;
pub use recipe::{Recipe, Recipes, Term};
pub use sums::sum_along;
