//! The pockets that show that no set of monitors is smaller than the lowest.
#![tactic(auto)]

mod gathering;
mod homes;
mod labelling;

pub use gathering::{pockets, pockets_with};
