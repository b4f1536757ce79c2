// Pieces of a block.
ghost use Rattle.std.specs.Prelude.{◌≡◌};

use sqlite_items::Items;
use tomo_base::Link;

/// A piece of a block: nodes, in ascending order, and links between them.
#[derive(Drop)]
pub struct Piece {
    pub nodes: Items<u32>,
    pub links: Items<Link>,
}

impl Piece {
    /// The nodes, in ascending order. It takes no memory.
    pub fn nodes(&self) -> &[u32]
        ensures { result.now ≡ self.now.nodes }
    {
        self.nodes.as_slice()
    }
}
