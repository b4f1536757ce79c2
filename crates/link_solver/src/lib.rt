//! Rounds over a plan: the one assignment that has the given sums along its paths, or why there is none.
#![tactic(auto)]

mod answer;
mod delays;
pub mod laws;
mod solve;
mod tied;

pub use answer::{Answer, Why};
pub use delays::Delays;
pub use solve::{solve_into, solve_round};
pub use tied::are_tied;
