// Rounds, as the sums of all of them.
ghost use Rattle.std.specs.Prelude.{◌≡◌, ◌<◌, [], length, slice_index_or};

use std::marker::Model;

/// Rounds, each a list of sums, one for each path. Contracts see the list of these lists.
#[derive(Drop)]
pub struct Rounds {
    // how many sums a round has
    pub(crate) width: u32,
    // how many rounds there are
    pub(crate) count: u32,
    // the sums of all rounds, one round after the other
    pub(crate) sums: Vec<u64>,
}

impl Model for Rounds {
    ghost use Rattle.std.specs.Prelude.{ℕ, List, ◌≡◌, ◌*◌, length};
    ghost use Rattle.round_reader.specs.Cuts.{cut_up};

    ghost Value = { List (List ℕ) };

    ghost view = { λ r. cut_up r.width r.count r.sums.items };

    ghost invariant = { λ r. length r.sums.items ≡ r.count * r.width };
}

impl Rounds {
    /// How many rounds there are. It takes no memory.
    pub fn len(&self) -> u32
        ensures { result ≡ length self.now }
    {
        self.count
    }

    /// The sums of a round, by its number from 0, in the order of the paths. It takes no memory.
    pub fn round(&self, i: u32) -> &[u64]
        requires { i < length self.now }
        ensures { result.now ≡ slice_index_or self.now i [] }
    {
        let width = self.width as usize;
        let start = i as usize * width;
        &self.sums[start..start + width]
    }
}
