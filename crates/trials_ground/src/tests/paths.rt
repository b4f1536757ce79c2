// Pools and recipes grow where memory is ample, and monitor paths are told from other lists.
use samples::{graph_with, set_of};
use simple_path::{PathPool, Recipe, Recipes, Term, is_monitor_path};
use std::test::Fail;

#[test]
fn pools_grow(rt: HostRuntime) -> Result<(), Fail> {
    let mut pool = PathPool::new(rt.alloc());
    assert!(rt; pool.add(&[0, 1])? == 0);
    assert!(rt; pool.add(&[0, 2, 1])? == 1);
    assert!(rt; pool.len() == 2);
    assert!(rt; pool.path(1) == [0, 2, 1].as_slice());
    Ok(())
}

#[test]
fn a_path_after_a_cut_leaves_the_earlier_ones(rt: HostRuntime) -> Result<(), Fail> {
    let mut pool = PathPool::new(rt.alloc());
    pool.add(&[0, 1])?;
    pool.add(&[0, 2, 1])?;
    pool.cut_back(1);
    assert!(rt; pool.len() == 1);
    assert!(rt; pool.add(&[3, 4, 5, 6])? == 1);
    assert!(rt; pool.path(0) == [0, 1].as_slice());
    assert!(rt; pool.path(1) == [3, 4, 5, 6].as_slice());
    Ok(())
}

#[test]
fn recipes_grow(rt: HostRuntime) -> Result<(), Fail> {
    let mut recipe = Recipe::new(rt.alloc());
    recipe.push(Term { coef: 2, path: 0 })?;
    let mut recipes = Recipes::new(rt.alloc());
    assert!(rt; recipes.push(recipe).is_ok());
    assert!(rt; recipes.len() == 1);
    assert!(rt; recipes.at(0).terms() == [Term { coef: 2, path: 0 }].as_slice());
    Ok(())
}

#[test]
fn monitor_paths_are_told(rt: HostRuntime) -> Result<(), Fail> {
    let g = graph_with(rt.alloc(), 3, &[(0, 1), (0, 2), (1, 2)])?;
    let m = set_of(rt.alloc(), &[0, 1])?;
    for (path, told) in [
        ([1, 2, 0].as_slice(), true),
        (&[0, 1], true),
        (&[0, 2], false),
        (&[0, 2, 0, 1], false),
        (&[0, 9, 1], false),
        (&[0], false),
    ] {
        assert!(rt; is_monitor_path(&g, &m, path) == told);
    }
    Ok(())
}
