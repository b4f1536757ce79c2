// Split trees.
ghost use Rattle.std.specs.Prelude.{ℕ, ◌≡◌, ◌+◌, max, IfOk};
ghost use Rattle.split_tree.specs.Pieces.{IsPiece, IsCutInto};
ghost use Rattle.split_tree.specs.Trees.{piece_of, depth_of, Facts, IsSplitTree};
ghost use Rattle.split_tree.specs.OneProof.{split_tree_prop};

use crate::piece::Piece;
use sqlite_items::{Boxed, Items};
use std::alloc::Global;
use tomo_base::{Link, NoMemory};

/// A piece and how it is split.
#[derive(Drop)]
pub enum Tree {
    /// It has at most three nodes.
    Small(Piece),
    /// It is three-connected.
    Rigid(Piece),
    /// Two nodes cut it into two parts.
    Split {
        piece: Piece,
        pair: Link,
        parts: Items<Boxed<Tree>>,
    },
}

/// The split tree of a block whose nodes are below `node_count`.
#[derive(Drop)]
pub struct SplitTree {
    pub root: Tree,
    pub node_count: u32,
    ghost facts: { IsSplitTree node_count root } by { split_tree_prop node_count root },
}

impl SplitTree {
    /// The whole tree. It takes no memory.
    pub fn root(&self) -> &Tree
        ensures { result.now ≡ self.now.root }
    {
        &self.root
    }
}

// A piece that is cut into the pieces of two trees.
pub fn joined(
    alloc: Global,
    piece: Piece,
    pair: Link,
    left: Tree,
    right: Tree,
) -> Result<Tree, NoMemory>
    ensures facts { IfOk result (λ t. (n : ℕ) → IsPiece n piece → IsCutInto piece pair (piece_of left) (piece_of right) → Facts n left → Facts n right → Facts n t) }
    ensures piece { IfOk result (λ t. piece_of t ≡ piece) }
    ensures depth { IfOk result (λ t. depth_of t ≡ max (depth_of left) (depth_of right) + 1) }
{
    let mut parts = Items::new(alloc);
    parts.push(Boxed::new(alloc, left)?)?;
    parts.push(Boxed::new(alloc, right)?)?;
    Ok(Tree::Split { piece, pair, parts })
}
