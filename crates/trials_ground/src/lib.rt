//! Tests of the crates of the ground: graphs, devices, rows, topologies, rounds, paths, flows and recipes, each over public calls alone.
#![tactic(auto)]

#[cfg(test)]
mod tests;
