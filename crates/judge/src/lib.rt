//! Whether monitors identify every link, and if not, where they cannot see.
#![tactic(auto)]

mod monitors;

pub use monitors::{Verdict, judge};
