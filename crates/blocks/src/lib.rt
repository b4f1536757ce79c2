//! Blocks and cut vertices of a connected graph.
#![tactic(auto)]

mod block_list;
mod marks;
mod node_lists;
mod sides;

pub use block_list::{BlockList, blocks};
pub use marks::marked_nodes;
pub use node_lists::ordered_sets;
