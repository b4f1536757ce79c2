//! Small graphs, and small networks and their plans as texts, for the tests of several crates.
#![tactic(auto)]

mod graphs;
mod networks;
mod plans;

pub use graphs::{FIVE_LINKED, graph_with, set_of};
pub use networks::{
    CAMPUS, CHORD, COMPLETE, COMPLETE_WITH_A_LEAF, HEXAGON, PRISM, RING, SHARING_A_NODE,
    SHARING_A_PAIR, STAR, TRIANGLES, TWO_LINKS,
};
pub use plans::{
    COMPLETE_PLAN, RING_PLAN, STAR_PATHS, STAR_PLAN, TRIANGLES_PLAN, TWO_LINKS_PLAN, with_row,
};
