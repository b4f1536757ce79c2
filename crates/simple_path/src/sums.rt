// Sums of delays along paths.
ghost use Rattle.std.specs.Prelude.{◌≡◌, ◌≤◌, length, All, IsTrue};
ghost use Rattle.tomo_base.specs.Limits.{summand_limit};
ghost use Rattle.tomo_base.specs.Network.{linked};
ghost use Rattle.tomo_base.specs.Walks.{IsWalk, NoneTwice};
ghost use Rattle.tomo_base.specs.Identify as spec;
ghost use Rattle.tomo_base.specs.Identify.{delay_between};

use tomo_base::Graph;

// The delay of the link between two nodes.
fn delay_of(g: &Graph, a: u32, b: u32, delays: &[u64]) -> u64
    requires linked { IsTrue (linked g.now a b) }
    requires one_each { length delays.now ≡ length g.now.links }
    requires small { All (λ d. d ≤ summand_limit) delays.now }
    ensures delay { result ≡ delay_between g.now.links delays.now a b }
    ensures small { result ≤ summand_limit }
{
    // The ends of a link are nodes.
    let _nodes = g.nodes();
    match g.between(a, b) {
        Some(link) => delays[link as usize],
        None => unreachable!(),
    }
}

/// The sum along a path: the delays of the links between each of its nodes and the next, added up. There is one delay for each
/// link of the graph, of at most `summand_limit`. It takes no memory: a binary search among neighbours for each step.
pub fn sum_along(g: &Graph, path: &[u32], delays: &[u64]) -> u64
    requires walk { IsWalk g.now path.now }
    requires different { NoneTwice path.now }
    requires one_each { length delays.now ≡ length g.now.links }
    requires small { All (λ d. d ≤ summand_limit) delays.now }
    ensures { result ≡ spec.sum_along g.now delays.now path.now }
{
    let _nodes = g.nodes();
    let [first, rest @ ..] = path else {
        return 0;
    };
    let mut from = *first;
    let mut sum = 0;
    for &node in rest {
        sum += delay_of(g, from, node, delays);
        from = node;
    }
    sum
}
