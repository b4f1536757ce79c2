//! Tests of whole runs over devices in memory: words, files, status and output, as tables.
#![tactic(auto)]

#[cfg(test)]
mod tests;
