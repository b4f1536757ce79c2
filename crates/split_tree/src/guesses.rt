// Guesses of where two nodes part a piece. Nothing is proved of them but that they are safe to make: what is taken of them is checked.
ghost use Rattle.std.specs.Prelude.{ℕ, ◌≡◌, ◌≤◌, ◌<◌, true, length, IfOk, IfSome};
ghost use Rattle.tomo_base.specs.Limits.{graph_node_limit, graph_link_limit};
ghost use Rattle.tomo_base.specs.Network.{Network};
ghost use Rattle.tomo_base.specs.Search.{mark_of};

use crate::piece::Piece;
use crate::thin::thin_ways;
use std::alloc::Global;
use three_conn::{Parting, probe};
use tomo_base::{Graph, GraphFault, Link, NoMemory, Swept, sweep};

// The place of a node in the ascending list.
fn place_in(nodes: &[u32], v: u32) -> u32
    requires { length nodes.now ≤ graph_node_limit }
{
    match nodes.binary_search(&v) {
        Ok(place) => place as u32,
        Err(_) => 0,
    }
}

// The links, each end by its place in the list.
fn own_links(alloc: Global, nodes: &[u32], links: &[Link]) -> Result<Vec<Link>, NoMemory>
    requires { length nodes.now ≤ graph_node_limit }
    ensures { IfOk result (λ own. length own.items ≡ length links.now) }
{
    let mut own = Vec::new(alloc);
    for link in links {
        let a = place_in(nodes, link.a);
        let b = place_in(nodes, link.b);
        own.push(Link { a, b })?;
    }
    Ok(own)
}

// The graph with these links, if they make one.
fn own_graph(alloc: Global, count: u32, links: &[Link]) -> Result<Option<Graph>, NoMemory>
    requires nodes { count ≤ graph_node_limit }
    requires links { length links.now ≤ graph_link_limit }
    ensures { IfOk result (λ o. IfSome o (λ (g : Network). g.nodes ≡ count)) }
{
    match Graph::new(alloc, count, links) {
        Ok(g) => Ok(Some(g)),
        Err(GraphFault::NoMemory) => Err(NoMemory),
        Err(_) => Ok(None),
    }
}

// The nodes at these places.
fn named(alloc: Global, nodes: &[u32], places: &Parting) -> Result<Parting, NoMemory> {
    let mut side = Vec::new(alloc);
    for &place in &places.side {
        if let Some(&v) = nodes.get(place as usize) {
            side.push(v)?;
        }
    }
    let first = nodes.get(places.first as usize).copied().unwrap_or(0);
    let second = nodes.get(places.second as usize).copied().unwrap_or(0);
    Ok(Parting {
        side,
        first,
        second,
    })
}

// Whether more than so many steps lead from the root to the node that the search found last.
fn is_deep(found: &Swept, root: u32, steps: usize) -> bool {
    let mut v = found.order.last().copied().unwrap_or(root);
    for _ in 0..steps {
        if v == root {
            return false;
        }
        v = found.parent.get(v as usize).copied().unwrap_or(root);
    }
    v != root
}

// Whether a connected graph has fewer links to a step than 16, as narrow strips have.
fn is_long(alloc: Global, g: &Graph, all: &[bool]) -> Result<bool, NoMemory>
    requires marks { length all.now ≡ g.now.nodes }
    requires all { (v : ℕ) → v < g.now.nodes → mark_of all.now v ≡ true }
    requires some { 1 ≤ g.now.nodes }
{
    let found = sweep(alloc, g, all, &[0])?;
    Ok(is_deep(&found, 0, g.links().len() / 16))
}

// A piece of so few nodes is cut at its ways however long it is.
const FEW: u32 = 64;

// Guesses for a piece of so many nodes, each by its place: its thin ways, of a large piece first those that have an eighth of its nodes; or
// where it is long, or small and without such ways, what a search finds.
fn own_guesses(
    alloc: Global,
    count: u32,
    links: &[Link],
    is_small: bool,
) -> Result<Vec<Parting>, NoMemory>
    requires nodes { count ≤ graph_node_limit }
    requires links { length links.now ≤ graph_link_limit }
    requires four { 4 ≤ count }
{
    let mut ways = thin_ways(alloc, count, links)?;
    if ways.is_empty() && !is_small || !ways.is_empty() && count <= FEW {
        return Ok(ways);
    }
    let least = count as usize / 8;
    if ways.iter().any(|way| way.side.len() >= least) {
        ways.retain(|way| way.side.len() >= least);
        return Ok(ways);
    }
    let Some(g) = own_graph(alloc, count, links)? else {
        return Ok(ways);
    };
    let all = vec![in alloc; true; count as usize]?;
    if !ways.is_empty() && !is_long(alloc, &g, &all)? {
        return Ok(ways);
    }
    ways.clear();
    if let Some(found) = probe(alloc, &g, &all, count / 2)? {
        ways.push(found)?;
    }
    Ok(ways)
}

// Guesses of where two nodes part the piece, which is small beside a graph of n nodes where it has less than a quarter of them. Each node
// of the piece goes by its place meanwhile, so that nothing is made for all n.
pub fn guesses(alloc: Global, n: u32, piece: &Piece) -> Result<Vec<Parting>, NoMemory>
    requires nodes { length piece.now.nodes ≤ graph_node_limit }
    requires links { length piece.now.links ≤ graph_link_limit }
    requires four { 4 ≤ length piece.now.nodes }
{
    let nodes = piece.nodes.as_slice();
    let links = own_links(alloc, nodes, piece.links.as_slice())?;
    let count = nodes.len() as u32;
    let own = own_guesses(alloc, count, &links, count < n / 4)?;
    let mut found = Vec::new(alloc);
    for places in &own {
        found.push(named(alloc, nodes, places)?)?;
    }
    Ok(found)
}
