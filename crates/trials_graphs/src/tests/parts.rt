// The cut vertices, the blocks and the three-blocks of small graphs, where memory is ample.
use crate::tests::shapes::{SHAPES, Shape, are, network_of};
use blocks::blocks;
use split_tree::{split, three_blocks};
use std::alloc::Global;
use std::test::Fail;
use tomo_base::NodeSet;

// Whether the graph of a shape has its cut vertices and its blocks.
fn has_blocks(alloc: Global, shape: &Shape) -> Result<bool, Fail> {
    let Some(g) = network_of(alloc, shape)? else {
        return Ok(false);
    };
    let found = blocks(alloc, &g)?;
    Ok(found.cuts().as_slice() == shape.cuts && are(found.list(), shape.blocks))
}

// Whether the three-blocks of the graph of a shape that lie in one of its blocks are those of the shape.
fn has_three_blocks(alloc: Global, shape: &Shape, block: u32) -> Result<bool, Fail> {
    let Some(g) = network_of(alloc, shape)? else {
        return Ok(false);
    };
    let parts = blocks(alloc, &g)?;
    if block >= parts.list().len() || parts.list().at(block).len() < 3 {
        return Ok(true);
    }
    let tree = split(alloc, &g, parts.list().at(block))?;
    let found = three_blocks(alloc, &tree)?;
    let mut inside = Vec::new(alloc);
    for &set in shape.three_blocks {
        if lies_in_block(set, parts.list().at(block)) {
            inside.push(set)?;
        }
    }
    Ok(are(&found, &inside))
}

// Whether each node stands in the block.
fn lies_in_block(nodes: &[u32], block: &NodeSet) -> bool {
    nodes.iter().all(|v| block.has(*v))
}

#[test]
fn blocks_and_three_blocks_of_small_graphs(rt: HostRuntime) -> Result<(), Fail> {
    for shape in SHAPES {
        assert!(rt; has_blocks(rt.alloc(), &shape)?);
        for block in 0..3u32 {
            assert!(rt; has_three_blocks(rt.alloc(), &shape, block)?);
        }
    }
    Ok(())
}
