// Numbers among the words.
ghost use Rattle.std.specs.Prelude.{◌≡◌, ◌<◌, [], length, Some, None, slice_index_or};
ghost use Rattle.tomo_run.specs.Numbers.{number_of, numbers_of};
ghost use Rattle.answers.specs.Drilling.{fit};

use answers::{DRAWN_LINK_LIMIT, DRAWN_NODE_LIMIT, DrillNumbers};
use plan_form::number;
use tomo_base::Words;

// The number that a word spells.
fn number_at(words: &Words, place: u32) -> Option<u32>
    requires { place < length words.now }
    ensures { result ≡ number_of (slice_index_or words.now place []) }
{
    number(words.at(place).as_bytes())
}

// Whether a network can be drawn by the numbers: the seed is below 2^31, there are 3 to `DRAWN_NODE_LIMIT` nodes, and so many links that
// they can join all nodes, at most `DRAWN_LINK_LIMIT` and at most one for each pair of nodes.
fn are_fit(x: DrillNumbers) -> bool
    ensures { result ≡ fit x }
{
    x.seed < 1 << 31
        && 3 <= x.nodes
        && x.nodes <= DRAWN_NODE_LIMIT
        && x.links <= DRAWN_LINK_LIMIT
        && x.nodes <= x.links + 1
        && x.links <= x.nodes * (x.nodes - 1) / 2
}

/// The numbers of a drill in the three words after the first, where a network can be drawn by them.
pub fn drill_numbers(words: &Words) -> Option<DrillNumbers>
    requires { length words.now ≡ 4 }
    ensures { result ≡ numbers_of words.now }
{
    let seed = number_at(words, 1)?;
    let nodes = number_at(words, 2)?;
    let links = number_at(words, 3)?;
    let numbers = DrillNumbers { seed, nodes, links };
    if are_fit(numbers) {
        Some(numbers)
    } else {
        None
    }
}
