// The three-blocks of a block.
ghost use Rattle.std.specs.Prelude.{◌≡◌, ◌≤◌, ◌+◌, ◌++◌, length, IfOk, OnOk};
ghost use Rattle.tomo_base.specs.Network.{Network, IsGraph};
ghost use Rattle.tomo_base.specs.Sets.{has};
ghost use Rattle.tomo_base.specs.Blocks.{IsThreeBlockOf};
ghost use Rattle.tomo_base.specs.SetLists.{AreAllSets, lists_of};
ghost use Rattle.split_tree.specs.Pieces.{IsPieceOf};
ghost use Rattle.split_tree.specs.Trees.{piece_of, rigids_of};

use crate::tree::{SplitTree, Tree};
use blocks::ordered_sets;
use std::alloc::Global;
use tomo_base::{NoMemory, NodeSets};

// Adds the nodes of each rigid piece.
fn collect(alloc: Global, tree: &Tree, found: &mut Vec<Vec<u32>>) -> Result<(), NoMemory>
    ensures { OnOk result (lists_of found.new.items ≡ lists_of found.old.items ++ rigids_of tree.now) }
{
    match tree {
        Tree::Small(_) => Ok(()),
        Tree::Rigid(piece) => {
            found.push(piece.nodes().to_vec(alloc)?)?;
            Ok(())
        }
        Tree::Split { parts, .. } => {
            for part in parts.as_slice() {
                collect(alloc, part.get(), found)?;
            }
            Ok(())
        }
    }
}

/// The three-blocks of the topmost piece, in lexicographic order: in each graph in which this piece is a block with its links, exactly the
/// largest sets of at least four of its nodes no two of which are parted by two others, fewer by at least two than its nodes. They are the
/// node sets of the rigid pieces (after Tutte, 1966, and Hopcroft and Tarjan, 1973), which are copied and sorted: of k sets with m nodes in
/// all, in the order of m log k steps.
pub fn three_blocks(alloc: Global, t: &SplitTree) -> Result<NodeSets, NoMemory>
    ensures three_blocks { IfOk result (λ sets. (g : Network) → IsGraph g → g.nodes ≡ t.now.node_count → IsPieceOf g (piece_of t.now.root).nodes (piece_of t.now.root) →
        AreAllSets g.nodes (IsThreeBlockOf g (has (piece_of t.now.root).nodes)) sets) }
    ensures few { IfOk result (λ sets. length sets + 2 ≤ length (piece_of t.now.root).nodes) }
{
    let mut found = Vec::new(alloc);
    collect(alloc, &t.root, &mut found)?;
    let sets = ordered_sets(alloc, found)?;
    Ok(sets)
}
