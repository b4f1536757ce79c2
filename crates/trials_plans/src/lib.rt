//! Tests of the crates on plans: orders of ears, trees, paths, plans, checks, rounds and drills, each over public calls alone.
#![tactic(auto)]

#[cfg(test)]
mod tests;
