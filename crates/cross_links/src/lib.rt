//! Recipes of at most four monitor paths for each link.
#![tactic(auto)]

mod adding;
mod crossing;
mod flows;
mod growth;
pub mod laws;
mod meeting;

pub use crossing::recipe;
