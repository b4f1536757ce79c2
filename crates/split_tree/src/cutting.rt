// A piece is cut at two nodes that part it.
ghost use Rattle.std.specs.Prelude.{◌≡◌, ◌≤◌, ◌<◌, length, IfOk, IfSome, IfNone};
ghost use Rattle.tomo_base.specs.Limits.{graph_node_limit};
ghost use Rattle.tomo_base.specs.Sets.{has};
ghost use Rattle.tomo_base.specs.Parting.{IsThreeConnectedIn};
ghost use Rattle.split_tree.specs.Pieces.{net};
ghost use Rattle.split_tree.specs.Stages.{IsStage, IsHalved, IsPairCut};

use crate::complete::is_complete;
use crate::guesses::guesses;
use crate::marked::part;
use crate::marks::{marks_with, marks_without};
use crate::parts::is_parted;
use crate::piece::Piece;
use std::alloc::Global;
use three_conn::{Parting, Sought, probe};
use tomo_base::{Graph, GraphFault, Link, NoMemory, marks_of};

// Two nodes, and the two parts into which they cut a piece.
#[derive(Drop)]
pub struct Halves {
    pub pair: Link,
    pub left: Piece,
    pub right: Piece,
}

// The piece as a graph.
fn graph_of(alloc: Global, n: u32, piece: &Piece) -> Result<Graph, NoMemory>
    requires stage { IsStage n piece.now }
    requires few { n ≤ graph_node_limit }
    ensures { IfOk result (λ g. g ≡ net n piece.now) }
{
    match Graph::new(alloc, n, piece.links.as_slice()) {
        Ok(graph) => Ok(graph),
        Err(fault) => match fault {
            GraphFault::NoMemory => Err(NoMemory),
            _ => unreachable!(),
        },
    }
}

// The last of the ways whose ends part the piece. It is taken away, and so are those behind it.
fn next_way(alloc: Global, n: u32, piece: &Piece, ways: &mut Vec<Parting>) -> Sought
    requires { IsStage n piece.now }
    ensures { IfOk result (λ o. IfSome o (IsPairCut n piece.now)) }
{
    while let Some(way) = ways.pop() {
        if is_parted(alloc, n, piece, &way)? {
            return Ok(Some(way));
        }
    }
    Ok(None)
}

// Two nodes that part the piece, and one side: by a guess of the list, or else by one that is made now, or by a search around a node in the
// middle of the list. None where the piece is three-connected.
pub fn parting_of(alloc: Global, n: u32, piece: &Piece, ways: &mut Vec<Parting>) -> Sought
    requires stage { IsStage n piece.now }
    requires few { n ≤ graph_node_limit }
    requires four { 4 ≤ length piece.now.nodes }
    ensures whole { IfOk result (λ o. IfNone o (IsThreeConnectedIn (net n piece.now) (has piece.now.nodes))) }
    ensures parting { IfOk result (λ o. IfSome o (IsPairCut n piece.now)) }
{
    if is_complete(piece) {
        return Ok(None);
    }
    if let Some(way) = next_way(alloc, n, piece, ways)? {
        return Ok(Some(way));
    }
    *ways = guesses(alloc, n, piece)?;
    if let Some(way) = next_way(alloc, n, piece, ways)? {
        return Ok(Some(way));
    }
    let nodes = piece.nodes.as_slice();
    let g = graph_of(alloc, n, piece)?;
    let marks = marks_of(alloc, n, nodes)?;
    let middle = nodes[nodes.len() / 2];
    match probe(alloc, &g, &marks, middle)? {
        Some(parting) => Ok(Some(parting)),
        None => Ok(None),
    }
}

// The two parts of a piece at two nodes that part it.
pub fn cut(alloc: Global, n: u32, piece: &Piece, parting: &Parting) -> Result<Halves, NoMemory>
    requires stage { IsStage n piece.now }
    requires parting { IsPairCut n piece.now parting.now }
    ensures { IfOk result (IsHalved n piece.now) }
{
    let pair = Link {
        a: parting.first.min(parting.second),
        b: parting.first.max(parting.second),
    };
    let near = marks_with(alloc, n, &parting.side, pair)?;
    let far = marks_without(alloc, n, piece.nodes.as_slice(), &parting.side)?;
    let left = part(alloc, n, piece, &near, pair)?;
    let right = part(alloc, n, piece, &far, pair)?;
    Ok(Halves { pair, left, right })
}
