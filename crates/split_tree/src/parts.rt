// Whether two nodes part a set of nodes of a piece from its others.
ghost use Rattle.std.specs.Prelude.{◌≡◌, true, IfOk};
ghost use Rattle.std.specs.List.{list_all, list_any};
ghost use Rattle.tomo_base.specs.Search.{mark_of};
ghost use Rattle.tomo_base.specs.Parting.{without_two};
ghost use Rattle.split_tree.specs.Parts.{is_unmarked, step_stays, link_stays};
ghost use Rattle.split_tree.specs.Stages.{IsStage, IsPairCut};

use crate::piece::Piece;
use std::alloc::Global;
use three_conn::Parting;
use tomo_base::{Link, NoMemory, marks_of};

// Whether a number has a mark.
fn is_marked(marks: &[bool], v: u32) -> bool
    ensures { result ≡ mark_of marks.now v }
{
    (v as usize) < marks.len() && marks[v as usize]
}

// Whether all of the side are marked, and none is one of the two nodes.
fn is_among(marks: &[bool], way: &Parting) -> bool
    ensures { result ≡ list_all (without_two (mark_of marks.now) way.now.first way.now.second) way.now.side.items }
{
    way.side.iter().all(|v| is_marked(marks, *v) && *v != way.first && *v != way.second)
}

// Whether a node has no mark and is none of the two.
fn leaves_some(nodes: &[u32], marks: &[bool], way: &Parting) -> bool
    ensures { result ≡ list_any (without_two (is_unmarked marks.now) way.now.first way.now.second) nodes.now }
{
    nodes.iter().any(|v| !is_marked(marks, *v) && *v != way.first && *v != way.second)
}

// Whether no step from u to v leads from the marked nodes to others than the two.
fn stays(marks: &[bool], way: &Parting, u: u32, v: u32) -> bool
    ensures { result ≡ step_stays (mark_of marks.now) way.now.first way.now.second u v }
{
    !is_marked(marks, u) || is_marked(marks, v) || v == way.first || v == way.second
}

// Whether no link leads from the marked nodes to others than the two.
fn is_shut(links: &[Link], marks: &[bool], way: &Parting) -> bool
    ensures { result ≡ list_all (link_stays (mark_of marks.now) way.now.first way.now.second) links.now }
{
    links.iter().all(|link| stays(marks, way, link.a, link.b) && stays(marks, way, link.b, link.a))
}

// Whether the two nodes part the side from a node of the piece: one pass over its nodes and links.
pub fn is_parted(alloc: Global, n: u32, piece: &Piece, way: &Parting) -> Result<bool, NoMemory>
    requires { IsStage n piece.now }
    ensures { IfOk result (λ b. b ≡ true → IsPairCut n piece.now way.now) }
{
    let nodes = piece.nodes.as_slice();
    let among = marks_of(alloc, n, nodes)?;
    if way.side.is_empty() || !is_among(&among, way) {
        return Ok(false);
    }
    let marks = marks_of(alloc, n, &way.side)?;
    if !leaves_some(nodes, &marks, way) {
        return Ok(false);
    }
    Ok(is_shut(piece.links.as_slice(), &marks, way))
}
