//! Graphs, words, and the definitions of link tomography that every crate speaks of.
#![tactic(auto)]

mod graph;
mod hop_rows;
mod limits;
mod list_order;
mod memory;
mod met;
mod node_marks;
mod node_set;
mod node_sets;
mod pocket;
mod search;
mod words;

pub use graph::{Graph, GraphFault, Hop, Link};
pub use limits::{
    DELAY_LIMIT, GRAPH_LINK_LIMIT, GRAPH_NODE_LIMIT, LINK_LIMIT, NODE_LIMIT, SUM_LIMIT,
};
pub use list_order::sort_lists;
pub use memory::NoMemory;
pub use node_marks::marks_of;
pub use node_set::NodeSet;
pub use node_sets::NodeSets;
pub use pocket::{Pocket, Pockets, need};
pub use search::{Swept, first_apart, look, reach, sweep};
pub use words::Words;
