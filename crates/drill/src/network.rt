// The network that is drawn from a seed.
ghost use Rattle.std.specs.Prelude.{◌≡◌, ◌<◌, ◌≤◌, ◌+◌, length, IfOk, OnOk};
ghost use Rattle.tomo_base.specs.Walks.{IsConnected};
ghost use Rattle.drill.specs.Draws.{state};
ghost use Rattle.drill.specs.Generated as spec;
ghost use Rattle.drill.specs.Generated.{generated, pair_count, CanDraw};
ghost use Rattle.drill.specs.Limits.{drawn_link_limit, drawn_node_limit};

use crate::draws::Draws;
use crate::growing::Growing;
use crate::pairs::all_pairs;
use std::alloc::Global;
use tomo_base::{Graph, Link, NoMemory};

// Link `k`: each node but the first is joined to a drawn node below it, and then a drawn place leads to a free pair.
fn next_link(draws: &mut Draws, network: &Growing, pairs: &[Link], n: u32, k: u32) -> Option<Link>
    requires some_nodes { 3 ≤ n }
    requires few_nodes { n ≤ drawn_node_limit }
    requires nodes { network.now.nodes ≡ n }
    requires pairs { pairs.now ≡ spec.pairs n }
    requires few { k ≤ drawn_link_limit }
    ensures link { result ≡ spec.next_link n k draws.old network.now.links }
    ensures draws { draws.new ≡ state draws.old 1 }
{
    if k + 1 < n {
        let lower = draws.draw(k + 1);
        return Some(Link { a: lower, b: k + 1 });
    }
    let place = draws.draw(pairs.len() as u32);
    network.next_free(pairs, place as usize)
}

/// The network of `n` nodes and `l` links that is drawn from the state of the generator, which then has made a draw for each link. Time
/// is near to the number of pairs of nodes, but for the pairs that are passed on the way to a free one, each joined by a link.
pub(crate) fn network(alloc: Global, draws: &mut Draws, n: u32, l: u32) -> Result<Graph, NoMemory>
    requires some_nodes { 3 ≤ n }
    requires few_nodes { n ≤ drawn_node_limit }
    requires few_links { l ≤ drawn_link_limit }
    requires room { l ≤ pair_count n }
    ensures graph { IfOk result (λ g. g ≡ generated draws.old n l) }
    ensures count { IfOk result (λ g. length g.links ≡ l) }
    ensures draws { OnOk result (draws.new ≡ state draws.old l) }
{
    let pairs = all_pairs(alloc, n)?;
    let mut network = Growing::new(alloc, n)?;
    for k in 0..l {
        match next_link(draws, &network, &pairs, n, k) {
            Some(link) => network.add(link)?,
            None => unreachable!(),
        }
    }
    network.to_graph(alloc)
}

/// The network of `n` nodes and `l` links that is drawn from a seed: a connected graph with a link from each node but the first to a drawn
/// node below it, and then links between free pairs of nodes, each the first from a drawn place on in the lexicographic order. The error
/// comes for want of memory alone.
pub fn generate(alloc: Global, seed: u32, n: u32, l: u32) -> Result<Graph, NoMemory>
    requires { CanDraw seed n l }
    ensures graph { IfOk result (λ g. g ≡ generated seed n l) }
    ensures count { IfOk result (λ g. length g.links ≡ l) }
    ensures connected { IfOk result IsConnected }
{
    network(alloc, &mut Draws::new(seed), n, l)
}
