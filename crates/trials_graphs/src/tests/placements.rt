// The lowest sets of small graphs, by flows and by parts, and their home pockets, where memory is ample.
use crate::tests::shapes::{SHAPES, Shape, network_of};
use drill::generate;
use drop_place::place;
use mmp_place::mmp;
use pocket_bound::pockets;
use std::alloc::Global;
use std::test::Fail;
use tomo_base::Pockets;

// Whether both placements answer the lowest set of a shape.
fn both_are_lowest(alloc: Global, shape: &Shape) -> Result<bool, Fail> {
    let Some(g) = network_of(alloc, shape)? else {
        return Ok(false);
    };
    let by_flows = place(alloc, &g)?;
    let by_parts = mmp(alloc, &g)?;
    Ok(by_flows.as_slice() == shape.lowest && by_parts.as_slice() == shape.lowest)
}

// Whether the pockets have these needs and nodes.
fn are(pockets: &Pockets, wanted: &[(u32, &[u32])]) -> bool {
    let mut same = pockets.len() as usize == wanted.len();
    for (i, &(need, nodes)) in wanted.iter().enumerate() {
        if i < pockets.len() as usize {
            let pocket = pockets.at(i as u32);
            same = same && pocket.need == need && pocket.nodes.as_slice() == nodes;
        }
    }
    same
}

// Whether the home pockets of the lowest set of a shape are its pockets.
fn has_pockets(alloc: Global, shape: &Shape) -> Result<bool, Fail> {
    let Some(g) = network_of(alloc, shape)? else {
        return Ok(false);
    };
    let lowest = place(alloc, &g)?;
    Ok(are(&pockets(alloc, &g, &lowest)?, shape.pockets))
}

#[test]
fn lowest_sets_of_small_graphs_and_their_pockets(rt: HostRuntime) -> Result<(), Fail> {
    for shape in SHAPES {
        assert!(rt; both_are_lowest(rt.alloc(), &shape)?);
        assert!(rt; has_pockets(rt.alloc(), &shape)?);
    }
    Ok(())
}

#[test]
fn both_placements_agree_on_drawn_networks(rt: HostRuntime) -> Result<(), Fail> {
    for seed in 1..4u32 {
        let g = generate(rt.alloc(), seed, 40, 60)?;
        if g.nodes() >= 3 {
            let by_flows = place(rt.alloc(), &g)?;
            let by_parts = mmp(rt.alloc(), &g)?;
            assert!(rt; by_flows.as_slice() == by_parts.as_slice());
            assert!(rt; by_parts.len() > 0);
        }
    }
    Ok(())
}
