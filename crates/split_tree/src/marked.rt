// Parts of a piece: marked nodes, the links between them, and a link more.
ghost use Rattle.std.specs.Prelude.{◌≡◌, ◌<◌, ◌&&◌, ◌==◌, length, All, IfOk};
ghost use Rattle.std.specs.List.{filter, list_any};
ghost use Rattle.tomo_base.specs.declared.graph.Link.{Link};
ghost use Rattle.tomo_base.specs.Search.{mark_of};
ghost use Rattle.split_tree.specs.Pieces.{IsPiece};
ghost use Rattle.split_tree.specs.Parts.{is_inside, IsMarkedPart};

use crate::piece::Piece;
use blocks::marked_nodes;
use sqlite_items::Items;
use std::alloc::Global;
use tomo_base::{Link, NoMemory};

// The links between nodes that have a mark.
pub fn marked_links(alloc: Global, links: &[Link], marks: &[bool]) -> Result<Vec<Link>, NoMemory>
    requires { All (λ (l : Link). (l.a < length marks.now) × (l.b < length marks.now)) links.now }
    ensures { IfOk result (λ kept. kept.items ≡ filter (is_inside marks.now) links.now) }
{
    let mut kept = Vec::new(alloc);
    for &link in links {
        if marks[link.a as usize] && marks[link.b as usize] {
            kept.push(link)?;
        }
    }
    Ok(kept)
}

// Whether the link is one of these.
fn has_link(links: &[Link], pair: Link) -> bool
    ensures { result ≡ list_any (λ (l : Link). (l.a == pair.a) && (l.b == pair.b)) links.now }
{
    links
        .iter()
        .any(|link| link.a == pair.a && link.b == pair.b)
}

// The part of a piece at two nodes that has the marked nodes.
pub fn part(
    alloc: Global,
    n: u32,
    piece: &Piece,
    marks: &[bool],
    pair: Link,
) -> Result<Piece, NoMemory>
    requires piece { IsPiece n piece.now }
    requires marks { length marks.now ≡ n }
    requires ordered { pair.a < pair.b }
    requires node { pair.b < n }
    ensures { IfOk result (IsMarkedPart n piece.now marks.now pair) }
{
    let nodes = marked_nodes(alloc, piece.nodes.as_slice(), marks)?;
    let mut links = marked_links(alloc, piece.links.as_slice(), marks)?;
    if !has_link(&links, pair) {
        links.push(pair)?;
    }
    Ok(Piece {
        nodes: Items::from_vec(nodes),
        links: Items::from_vec(links),
    })
}
