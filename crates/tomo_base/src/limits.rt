// The most that there may be. The words of `specs/Limits` have the same names.

/// The most nodes that a graph may have.
pub const GRAPH_NODE_LIMIT: u32 = 10_000;

/// The most links that a graph may have.
pub const GRAPH_LINK_LIMIT: usize = 20_000;

/// The most nodes that a topology may have.
pub const NODE_LIMIT: u32 = 2_000;

/// The most links that a topology may have.
pub const LINK_LIMIT: usize = 8_000;

/// The largest delay of a link.
pub const DELAY_LIMIT: u64 = 1_000_000_000_000_000;

/// The largest sum that may be measured along a path.
pub const SUM_LIMIT: u64 = 2_000_000_000_000_000_000;
