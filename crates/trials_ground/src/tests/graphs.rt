// Small graphs and sets, where memory is ample.
use samples::set_of;
use std::test::Fail;
use tomo_base::{
    Graph, GraphFault, Link, NodeSet, NodeSets, Pocket, Pockets, Words, first_apart, need, sweep,
};

const CHAIN: [Link; 3] = [
    Link { a: 0, b: 1 },
    Link { a: 2, b: 1 },
    Link { a: 2, b: 3 },
];

#[test]
fn links_of_a_chain_are_found(rt: HostRuntime) -> Result<(), Fail> {
    let g = Graph::new(rt.alloc(), 4, &CHAIN)?;
    assert!(rt; g.between(1, 2) == Some(1));
    assert!(rt; g.between(0, 3) == None);
    assert!(rt; g.hops(1).len() == 2);
    Ok(())
}

#[test]
fn the_first_node_apart_is_found(rt: HostRuntime) -> Result<(), Fail> {
    let alloc = rt.alloc();
    let whole = Graph::new(alloc, 4, &CHAIN)?;
    assert!(rt; first_apart(alloc, &whole)? == None);
    let apart = Graph::new(alloc, 4, &CHAIN[..2])?;
    assert!(rt; first_apart(alloc, &apart)? == Some(3));
    Ok(())
}

#[test]
fn a_search_ranks_what_it_reaches(rt: HostRuntime) -> Result<(), Fail> {
    let alloc = rt.alloc();
    let g = Graph::new(alloc, 4, &CHAIN)?;
    let found = sweep(alloc, &g, &[true, true, true, false], &[2])?;
    assert!(rt; found.order.as_slice() == [2, 1, 0].as_slice());
    assert!(rt; found.rank.as_slice() == [2, 1, 0, 4].as_slice());
    Ok(())
}

#[test]
fn faults_of_links_are_told(rt: HostRuntime) -> Result<(), Fail> {
    for (second, fault) in [
        (Link { a: 0, b: 3 }, GraphFault::Range(1)),
        (Link { a: 1, b: 1 }, GraphFault::Loop(1)),
        (Link { a: 1, b: 0 }, GraphFault::Repeat(1)),
    ] {
        let read = Graph::new(rt.alloc(), 3, &[Link { a: 0, b: 1 }, second]);
        assert!(rt; read.err() == Some(fault));
    }
    Ok(())
}

#[test]
fn sets_ascend_and_are_joined(rt: HostRuntime) -> Result<(), Fail> {
    let alloc = rt.alloc();
    let ends = set_of(alloc, &[2, 0, 2])?;
    assert!(rt; ends.as_slice() == [0, 2].as_slice());
    let last = set_of(alloc, &[2, 3])?;
    assert!(rt; ends.union(alloc, &last)?.as_slice() == [0, 2, 3].as_slice());
    Ok(())
}

#[test]
fn a_copy_leaves_its_set(rt: HostRuntime) -> Result<(), Fail> {
    let third = set_of(rt.alloc(), &[2])?;
    assert!(rt; third.copy(rt.alloc())?.as_slice() == [2].as_slice());
    assert!(rt; third.as_slice() == [2].as_slice());
    Ok(())
}

#[test]
fn a_node_of_a_chain_needs_one_monitor(rt: HostRuntime) -> Result<(), Fail> {
    let alloc = rt.alloc();
    let g = Graph::new(alloc, 4, &CHAIN)?;
    let third = set_of(alloc, &[2])?;
    assert!(rt; third.as_slice() == [2].as_slice());
    assert!(rt; third.outside(alloc, &g)?.as_slice() == [1, 3].as_slice());
    assert!(rt; need(&g, &third) == 1);
    Ok(())
}

#[test]
fn lists_of_sets_grow(rt: HostRuntime) -> Result<(), Fail> {
    let mut sets = NodeSets::new(rt.alloc());
    assert!(rt; sets.push(set_of(rt.alloc(), &[2])?).is_ok());
    assert!(rt; sets.push(set_of(rt.alloc(), &[0, 3])?).is_ok());
    assert!(rt; sets.len() == 2);
    assert!(rt; sets.at(1).as_slice() == [0, 3].as_slice());
    Ok(())
}

#[test]
fn pockets_and_words_grow(rt: HostRuntime) -> Result<(), Fail> {
    let nodes = set_of(rt.alloc(), &[2, 3])?;
    let mut pockets = Pockets::new(rt.alloc());
    assert!(rt; pockets.push(Pocket { nodes, need: 1 }).is_ok());
    assert!(rt; pockets.at(0).need == 1);
    let mut words = Words::new(rt.alloc());
    words.push("plan")?;
    assert!(rt; words.at(0) == "plan");
    Ok(())
}
