// Flows from the ends of a link to monitors.
ghost use Rattle.std.specs.Prelude.{◌≡◌, ◌<◌, [], ◌∷◌, length, map, All, IfOk, IsTrue, false};
ghost use Rattle.tomo_base.specs.Network.{linked, IsGraph};
ghost use Rattle.tomo_base.specs.Sets.{has};
ghost use Rattle.tomo_base.specs.BadParts.{NoBadPart};
ghost use Rattle.unit_flow.specs.Flows.{IsFlow, first_of, second_of, last_of};
ghost use Rattle.cross_links.specs.Ways.{freely, beside, onto, IsPlainLink, KeepsWay};

use crate::growth::{flow_beside, grow};
use crate::meeting::ends_on;
use simple_path::PathPool;
use std::alloc::Global;
use tomo_base::{Graph, NoMemory, NodeSet};
use unit_flow::Flow;

/// Two ways from a node to different monitors that share only the node and avoid a neighbour.
pub fn two_ways(alloc: Global, g: &Graph, m: &NodeSet, v: u32, w: u32) -> Result<PathPool, NoMemory>
    requires link { IsPlainLink g.now m.now v w }
    ensures flow { IfOk result (IsFlow (beside g.now (has m.now) v w)) }
    ensures two { IfOk result (λ p. length p ≡ 2) }
{
    let mut flow = flow_beside(alloc, g, m, v, w)?;
    grow(alloc, g, &mut flow)?;
    grow(alloc, g, &mut flow)?;
    flow.paths(alloc)
}

// A way from v over its neighbour w to a monitor.
fn way_over(alloc: Global, g: &Graph, m: &NodeSet, v: u32, w: u32) -> Result<Vec<u32>, NoMemory>
    requires link { IsPlainLink g.now m.now v w }
    requires plain_neighbour { has m.now w ≡ false }
    ensures flow { IfOk result (λ p. IsFlow (freely g.now (has m.now) v) (p.items ∷ [])) }
    ensures over { IfOk result (λ p. second_of p.items ≡ w) }
{
    let mut flow = flow_beside(alloc, g, m, w, v)?;
    grow(alloc, g, &mut flow)?;
    let ways = flow.paths(alloc)?;
    let mut path = [v].to_vec(alloc)?;
    path.extend_from_slice(ways.path(0))?;
    Ok(path)
}

/// Three ways from v to different monitors that share only v, one of which goes over its neighbour w.
pub fn three_ways(
    alloc: Global,
    g: &Graph,
    m: &NodeSet,
    v: u32,
    w: u32,
) -> Result<PathPool, NoMemory>
    requires link { IsPlainLink g.now m.now v w }
    requires plain_neighbour { has m.now w ≡ false }
    ensures flow { IfOk result (IsFlow (freely g.now (has m.now) v)) }
    ensures three { IfOk result (λ p. length p ≡ 3) }
    ensures over { IfOk result (λ p. IsTrue (has (map second_of p) w)) }
{
    let first = way_over(alloc, g, m, v, w)?;
    let mut flow = Flow::new(alloc, g, v, m, &NodeSet::new(alloc))?;
    flow.keep(g, &first);
    grow(alloc, g, &mut flow)?;
    grow(alloc, g, &mut flow)?;
    flow.paths(alloc)
}

/// Two ways that share only their source, the first node of a way that is kept, and avoid v. They end at monitors, or at nodes of the two
/// lists; one of them where the kept way ends.
pub fn second_ways(
    alloc: Global,
    g: &Graph,
    m: &NodeSet,
    v: u32,
    kept: &[u32],
    b: &[u32],
    c: &[u32],
) -> Result<PathPool, NoMemory>
    requires graph { IsGraph g.now }
    requires kept { KeepsWay g.now (has m.now) v kept.now b.now c.now }
    requires none { NoBadPart g.now (has m.now) }
    requires nodes { All (λ u. u < g.now.nodes) m.now }
    ensures flow { IfOk result (IsFlow (onto g.now (has m.now) b.now c.now (first_of kept.now) v)) }
    ensures two { IfOk result (λ p. length p ≡ 2) }
    ensures end { IfOk result (λ p. IsTrue (has (map last_of p) (last_of kept.now))) }
{
    let targets = ends_on(alloc, g.nodes(), m, b, c)?;
    let mut flow = flow_beside(alloc, g, &targets, kept[0], v)?;
    flow.keep(g, kept);
    grow(alloc, g, &mut flow)?;
    flow.paths(alloc)
}
