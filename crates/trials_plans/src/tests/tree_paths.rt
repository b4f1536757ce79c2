// Paths and recipes from trees of small graphs, where memory is ample.
ghost use Rattle.std.specs.Prelude.{◌<◌, ◌^◌, length};

use crate::tests::independent::grow;
use crate::tests::small::{CHAIN, PRISM, topology_of};
use samples::{STAR, TRIANGLES};
use simple_path::PathPool;
use std::alloc::Global;
use std::test::Fail;
use stpc_paths::stpc;

// How many links, paths and recipes there are.
fn counts(alloc: Global, text: &[u8]) -> Result<[u32; 3], Fail>
    requires { length text.now < 2 ^ 31 }
{
    let t = topology_of(alloc, text)?;
    let grown = grow(alloc, &t)?;
    let g = t.graph();
    let mut pool = PathPool::new(alloc);
    let recipes = stpc(alloc, g, &grown.monitors, &grown.trees, &mut pool)?;
    Ok([g.links().len() as u32, pool.len(), recipes.len()])
}

#[test]
fn there_are_as_many_paths_as_links(rt: HostRuntime) -> Result<(), Fail> {
    for (text, links) in [(CHAIN, 2), (STAR, 3), (TRIANGLES, 7), (PRISM, 9)] {
        assert!(rt; text.len() < 100);
        assert!(rt; counts(rt.alloc(), text)? == [links; 3]);
    }
    Ok(())
}
