//! Tests of the crates on graphs: three-connectivity, extended graphs, blocks, split trees, placements and pockets, each over public calls
//! alone.
#![tactic(auto)]

#[cfg(test)]
mod tests;
