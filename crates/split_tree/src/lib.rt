//! The split tree of a block: cut at pairs of nodes until each piece is small or three-connected; and the three-blocks of the block.
#![tactic(auto)]

mod complete;
mod cutting;
mod guesses;
mod marked;
mod marks;
mod parts;
mod piece;
mod rigid_pieces;
mod splitting;
mod thin;
mod tree;

pub use piece::Piece;
pub use rigid_pieces::three_blocks;
pub use splitting::split;
pub use tree::{SplitTree, Tree};
