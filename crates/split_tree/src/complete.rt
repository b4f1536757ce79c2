// Pieces whose nodes are all linked with each other.
ghost use Rattle.std.specs.Prelude.{◌≡◌, ◌≤◌, ◌+◌, ◌*◌, true, length};
ghost use Rattle.tomo_base.specs.Limits.{graph_node_limit, graph_link_limit};

use crate::piece::Piece;

// Whether there are as many links as the nodes have pairs.
pub fn is_complete(piece: &Piece) -> bool
    requires nodes { length piece.now.nodes ≤ graph_node_limit }
    requires links { length piece.now.links ≤ graph_link_limit }
    ensures { result ≡ true → 2 * length piece.now.links + length piece.now.nodes ≡ length piece.now.nodes * length piece.now.nodes }
{
    let count = piece.nodes.len();
    2 * piece.links.len() + count == count * count
}
