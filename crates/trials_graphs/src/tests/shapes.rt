// Small graphs by groups of nodes of which each two are linked, with their parts, their lowest sets and their pockets.
ghost use Rattle.std.specs.Prelude.{◌≤◌, ◌<◌, IsTrue, All, IfOk, IfSome, length};
ghost use Rattle.tomo_base.specs.Walks.{IsConnected};

use std::alloc::{AllocError, Global};
use std::test::Fail;
use tomo_base::{GRAPH_LINK_LIMIT, GRAPH_NODE_LIMIT, Graph, Link, NodeSet, NodeSets, first_apart};

#[derive(Clone, Copy)]
pub struct Shape {
    pub count: u32,
    pub groups: &'static [&'static [u32]],
    pub cuts: &'static [u32],
    pub blocks: &'static [&'static [u32]],
    pub three_blocks: &'static [&'static [u32]],
    pub lowest: &'static [u32],
    pub pockets: &'static [(u32, &'static [u32])],
}

pub const STAR: Shape = Shape {
    count: 4,
    groups: &[&[0, 1], &[0, 2], &[0, 3]],
    cuts: &[0],
    blocks: &[&[0, 1], &[0, 2], &[0, 3]],
    three_blocks: &[],
    lowest: &[1, 2, 3],
    pockets: &[(1, &[1]), (1, &[2]), (1, &[3])],
};

pub const COMPLETE: Shape = Shape {
    count: 4,
    groups: &[&[0, 1, 2, 3]],
    cuts: &[],
    blocks: &[&[0, 1, 2, 3]],
    three_blocks: &[&[0, 1, 2, 3]],
    lowest: &[0, 1, 2],
    pockets: &[(3, &[0, 1, 2, 3])],
};

pub const COMPLETE_WITH_A_LEAF: Shape = Shape {
    count: 5,
    groups: &[&[0, 1, 2, 3], &[3, 4]],
    cuts: &[3],
    blocks: &[&[0, 1, 2, 3], &[3, 4]],
    three_blocks: &[&[0, 1, 2, 3]],
    lowest: &[0, 1, 4],
    pockets: &[(2, &[0, 1, 2]), (1, &[4])],
};

pub const SHARING_A_NODE: Shape = Shape {
    count: 7,
    groups: &[&[0, 1, 2, 3], &[3, 4, 5, 6]],
    cuts: &[3],
    blocks: &[&[0, 1, 2, 3], &[3, 4, 5, 6]],
    three_blocks: &[&[0, 1, 2, 3], &[3, 4, 5, 6]],
    lowest: &[0, 1, 4, 5],
    pockets: &[(2, &[0, 1, 2]), (2, &[4, 5, 6])],
};

pub const SHARING_A_PAIR: Shape = Shape {
    count: 8,
    groups: &[&[0, 1, 2, 3, 4], &[0, 5, 6, 7], &[1, 5], &[1, 6], &[1, 7]],
    cuts: &[],
    blocks: &[&[0, 1, 2, 3, 4, 5, 6, 7]],
    three_blocks: &[&[0, 1, 2, 3, 4], &[0, 1, 5, 6, 7]],
    lowest: &[0, 2, 5],
    pockets: &[(3, &[0, 1, 2, 3, 4, 5, 6, 7])],
};

pub const TRIANGLES: Shape = Shape {
    count: 6,
    groups: &[&[0, 1, 2], &[2, 3], &[3, 4, 5]],
    cuts: &[2, 3],
    blocks: &[&[0, 1, 2], &[2, 3], &[3, 4, 5]],
    three_blocks: &[],
    lowest: &[0, 1, 4, 5],
    pockets: &[(1, &[0]), (1, &[1]), (1, &[4]), (1, &[5])],
};

pub const PRISM: Shape = Shape {
    count: 6,
    groups: &[&[0, 1, 2], &[3, 4, 5], &[0, 3], &[1, 4], &[2, 5]],
    cuts: &[],
    blocks: &[&[0, 1, 2, 3, 4, 5]],
    three_blocks: &[&[0, 1, 2, 3, 4, 5]],
    lowest: &[0, 1, 2],
    pockets: &[(3, &[0, 1, 2, 3, 4, 5])],
};

pub const RING: Shape = Shape {
    count: 6,
    groups: &[&[0, 1], &[1, 2], &[2, 3], &[3, 4], &[4, 5], &[0, 5]],
    cuts: &[],
    blocks: &[&[0, 1, 2, 3, 4, 5]],
    three_blocks: &[],
    lowest: &[0, 1, 2, 3, 4, 5],
    pockets: &[
        (1, &[0]),
        (1, &[1]),
        (1, &[2]),
        (1, &[3]),
        (1, &[4]),
        (1, &[5]),
    ],
};

// A ring of four nodes, and a link between two opposite ones.
pub const CHORD: Shape = Shape {
    count: 4,
    groups: &[&[0, 1, 2], &[2, 3], &[0, 3]],
    cuts: &[],
    blocks: &[&[0, 1, 2, 3]],
    three_blocks: &[],
    lowest: &[0, 1, 3],
    pockets: &[(1, &[0, 2]), (1, &[1]), (1, &[3])],
};

pub const SHAPES: [Shape; 9] = [
    STAR,
    COMPLETE,
    COMPLETE_WITH_A_LEAF,
    SHARING_A_NODE,
    SHARING_A_PAIR,
    TRIANGLES,
    PRISM,
    RING,
    CHORD,
];

// Links each node of the list to each later one.
fn link_all(links: &mut Vec<Link>, nodes: &[u32]) -> Result<(), AllocError> {
    for (i, &a) in nodes.iter().enumerate() {
        for &b in &nodes[i + 1..] {
            links.push(Link { a, b })?;
        }
    }
    Ok(())
}

// The graph of a shape, if its links are a graph's.
pub fn graph_of(alloc: Global, shape: &Shape) -> Result<Option<Graph>, Fail> {
    let mut links: Vec<Link> = Vec::new(alloc);
    for group in shape.groups {
        link_all(&mut links, group)?;
    }
    if shape.count > GRAPH_NODE_LIMIT || links.len() > GRAPH_LINK_LIMIT {
        return Ok(None);
    }
    Ok(Graph::new(alloc, shape.count, &links).ok())
}

// The graph of a shape, if it is connected and has three nodes or more.
pub fn network_of(alloc: Global, shape: &Shape) -> Result<Option<Graph>, Fail>
    ensures connected { IfOk result (λ o. IfSome o (λ g. IsConnected g)) }
    ensures nodes { IfOk result (λ o. IfSome o (λ g. 3 ≤ g.nodes)) }
{
    let Some(g) = graph_of(alloc, shape)? else {
        return Ok(None);
    };
    if g.nodes() < 3 || first_apart(alloc, &g)?.is_some() {
        return Ok(None);
    }
    Ok(Some(g))
}

// Whether the set lies in the graph.
pub fn lies_in(g: &Graph, set: &NodeSet) -> bool
    ensures { IsTrue result → All (λ v. v < g.now.nodes) set.now }
{
    let count = g.nodes();
    set.as_slice().iter().all(|v| *v < count)
}

// Whether the list has these sets.
pub fn are(sets: &NodeSets, wanted: &[&[u32]]) -> bool {
    let mut same = sets.len() as usize == wanted.len();
    for (i, &nodes) in wanted.iter().enumerate() {
        if i < sets.len() as usize {
            same = same && sets.at(i as u32).as_slice() == nodes;
        }
    }
    same
}
