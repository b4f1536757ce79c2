// The split tree of a block.
ghost use Rattle.std.specs.Prelude.{◌≡◌, ◌≤◌, ◌<◌, length, All, IfOk};
ghost use Rattle.tomo_base.specs.Limits.{graph_node_limit};
ghost use Rattle.tomo_base.specs.Sets.{has};
ghost use Rattle.tomo_base.specs.Blocks.{IsBlock};
ghost use Rattle.split_tree.specs.Pieces.{IsPieceOf};
ghost use Rattle.split_tree.specs.Stages.{IsStage};
ghost use Rattle.split_tree.specs.Trees.{Facts, piece_of, depth_of};

use crate::cutting::{cut, parting_of};
use crate::marked::marked_links;
use crate::piece::Piece;
use crate::tree::{SplitTree, Tree, joined};
use sqlite_items::Items;
use std::alloc::Global;
use three_conn::Parting;
use tomo_base::{Graph, NoMemory, NodeSet, marks_of};

// The tree of a piece that no single node cuts. The ways are guesses of where to cut it, and the right part has those that are left.
fn build(alloc: Global, n: u32, piece: Piece, ways: &mut Vec<Parting>) -> Result<Tree, NoMemory>
    requires stage { IsStage n piece }
    requires few { n ≤ graph_node_limit }
    ensures facts { IfOk result (Facts n) }
    ensures piece { IfOk result (λ t. piece_of t ≡ piece) }
    ensures depth { IfOk result (λ t. depth_of t ≤ length piece.nodes) }
{
    if piece.nodes.len() <= 3 {
        return Ok(Tree::Small(piece));
    }
    match parting_of(alloc, n, &piece, ways)? {
        None => Ok(Tree::Rigid(piece)),
        Some(parting) => {
            let halves = cut(alloc, n, &piece, &parting)?;
            let left = build(alloc, n, halves.left, &mut Vec::new(alloc))?;
            let right = build(alloc, n, halves.right, ways)?;
            joined(alloc, piece, halves.pair, left, right)
        }
    }
}

// The block with its links.
fn whole(alloc: Global, g: &Graph, block: &NodeSet) -> Result<Piece, NoMemory>
    requires block { IsBlock g.now (has block.now) }
    requires nodes { All (λ v. v < g.now.nodes) block.now }
    ensures piece { IfOk result (IsPieceOf g.now block.now) }
    ensures stage { IfOk result (IsStage g.now.nodes) }
{
    let nodes = block.as_slice();
    let marks = marks_of(alloc, g.nodes(), nodes)?;
    let links = marked_links(alloc, g.links(), &marks)?;
    Ok(Piece {
        nodes: Items::from_slice(alloc, nodes)?,
        links: Items::from_vec(links),
    })
}

/// The split tree of a block of at least three nodes, whose topmost piece is the block with its links. A piece of more than three nodes is
/// cut at two nodes that part it, as long as there are two, into two parts; each part gets the link between the two. After Hopcroft and
/// Tarjan (1973), in another way: pieces are cut one by one. A path whose inner nodes have two neighbours each is cut off at its ends, in a
/// few passes over the nodes and links of the piece, and over a few marks for each node of the graph. Any other piece takes a test of
/// three-connectivity, so at most about three searches for each node of it, unless its nodes are all linked. Rings are cut in half, and
/// long strips near their middle; a piece from which each cut takes few nodes may need as many levels as it has nodes.
pub fn split(alloc: Global, g: &Graph, block: &NodeSet) -> Result<SplitTree, NoMemory>
    requires block { IsBlock g.now (has block.now) }
    requires nodes { All (λ v. v < g.now.nodes) block.now }
    requires three { 3 ≤ length block.now }
    ensures piece { IfOk result (λ t. IsPieceOf g.now block.now (piece_of t.root)) }
    ensures nodes { IfOk result (λ t. t.node_count ≡ g.now.nodes) }
{
    let piece = whole(alloc, g, block)?;
    let root = build(alloc, g.nodes(), piece, &mut Vec::new(alloc))?;
    Ok(SplitTree {
        root,
        node_count: g.nodes(),
    })
}
