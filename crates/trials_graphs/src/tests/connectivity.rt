// Graphs are tested for three-connectivity, and extended, where memory is ample.
use crate::tests::shapes::{CHORD, COMPLETE, PRISM, SHARING_A_PAIR, Shape, graph_of, lies_in};
use extended_graph::{extend, three_connected_by_monitors};
use samples::{graph_with, set_of};
use std::alloc::Global;
use std::test::Fail;
use three_conn::{Conn, three_connected};
use tomo_base::{GRAPH_LINK_LIMIT, GRAPH_NODE_LIMIT, Graph, Link, NoMemory};

// Whether the answer for the graph of a shape is a cut of these nodes, or, with none given, that it is three-connected.
fn answers(alloc: Global, shape: &Shape, cut: Option<&[u32]>) -> Result<bool, Fail> {
    let Some(g) = graph_of(alloc, shape)? else {
        return Ok(false);
    };
    Ok(match three_connected(alloc, &g)? {
        Conn::Few => false,
        Conn::Cut(nodes) => cut == Some(nodes.as_slice()),
        Conn::Yes => cut.is_none(),
    })
}

#[test]
fn a_triangle_has_few_nodes(rt: HostRuntime) -> Result<(), Fail> {
    let g = graph_with(rt.alloc(), 3, &[(0, 1), (2, 0)])?;
    assert!(rt; matches!(three_connected(rt.alloc(), &g)?, Conn::Few));
    Ok(())
}

#[test]
fn a_node_apart_is_parted_from_a_triangle(rt: HostRuntime) -> Result<(), Fail> {
    let g = graph_with(rt.alloc(), 4, &[(0, 1), (1, 2), (2, 0)])?;
    assert!(rt; matches!(three_connected(rt.alloc(), &g)?, Conn::Cut(cut) if !cut.has(3)));
    Ok(())
}

#[test]
fn no_two_nodes_part_what_is_three_connected(rt: HostRuntime) -> Result<(), Fail> {
    for shape in [COMPLETE, PRISM] {
        assert!(rt; answers(rt.alloc(), &shape, None)?);
    }
    Ok(())
}

#[test]
fn what_parts_a_graph_is_told(rt: HostRuntime) -> Result<(), Fail> {
    for (shape, cut) in [(SHARING_A_PAIR, [0, 1].as_slice()), (CHORD, &[0, 2])] {
        assert!(rt; answers(rt.alloc(), &shape, Some(cut))?);
    }
    Ok(())
}

// The extended graph, where it is within the limits of a graph.
fn extended_by(alloc: Global, g: &Graph, monitors: &[u32]) -> Result<Option<Graph>, NoMemory> {
    let set = set_of(alloc, monitors)?;
    if !lies_in(g, &set)
        || g.nodes() > GRAPH_NODE_LIMIT - 2
        || g.links().len() + 2 * set.as_slice().len() > GRAPH_LINK_LIMIT
    {
        return Ok(None);
    }
    Ok(Some(extend(alloc, g, &set)?))
}

#[test]
fn a_chain_with_monitors_at_its_ends(rt: HostRuntime) -> Result<(), Fail> {
    three_connected_by_monitors();
    let links = [Link { a: 0, b: 1 }, Link { a: 1, b: 2 }];
    let chain = Graph::new(rt.alloc(), 3, &links)?;
    let wide = extended_by(rt.alloc(), &chain, &[2, 0])?.expect(&rt, "no extended graph");
    let all = [
        Link { a: 0, b: 1 },
        Link { a: 1, b: 2 },
        Link { a: 0, b: 3 },
        Link { a: 0, b: 4 },
        Link { a: 2, b: 3 },
        Link { a: 2, b: 4 },
    ];
    assert!(rt; wide.nodes() == 5);
    assert!(rt; wide.links() == all.as_slice());
    Ok(())
}
