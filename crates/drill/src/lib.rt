//! Drills: a network is drawn from a seed, planned, checked, measured with drawn delays, and solved.
#![tactic(auto)]

mod delays;
mod draws;
mod growing;
mod limits;
mod network;
mod pairs;
mod report;
mod run;
mod solving;

pub use limits::{DRAWN_LINK_LIMIT, DRAWN_NODE_LIMIT};
pub use network::generate;
pub use run::drill;
