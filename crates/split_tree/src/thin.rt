// Thin ways of a piece: paths whose inner nodes have two neighbours each. They are guesses of where two nodes part it.
use std::alloc::Global;
use three_conn::Parting;
use tomo_base::{Link, NoMemory};

// How many neighbours of a node are found, the last two of them, and whether a way has come to it.
#[derive(Clone, Copy, Drop)]
struct Around {
    count: u32,
    last: u32,
    other: u32,
    seen: bool,
}

// A neighbour more.
fn meet(around: &mut [Around], v: u32, w: u32) {
    if let Some(here) = around.get_mut(v as usize) {
        here.count = here.count.saturating_add(1);
        here.other = here.last;
        here.last = w;
    }
}

// The neighbours of each node.
fn neighbours(alloc: Global, count: u32, links: &[Link]) -> Result<Vec<Around>, NoMemory> {
    let none = Around {
        count: 0,
        last: 0,
        other: 0,
        seen: false,
    };
    let mut around = vec![in alloc; none; count as usize]?;
    for link in links {
        meet(&mut around, link.a, link.b);
        meet(&mut around, link.b, link.a);
    }
    Ok(around)
}

// A node that has two neighbours and to which no way has come before.
fn enter(around: &mut [Around], v: u32) -> Option<Around> {
    let here = around.get_mut(v as usize)?;
    if here.count != 2 || here.seen {
        return None;
    }
    here.seen = true;
    Some(*here)
}

// Goes on from one node to the next, as long as they have two neighbours each, and adds them. The node where this ends.
fn follow(around: &mut [Around], from: u32, to: u32, side: &mut Vec<u32>) -> Result<u32, NoMemory> {
    let mut before = from;
    let mut v = to;
    for _ in 0..around.len() {
        let Some(here) = enter(around, v) else {
            return Ok(v);
        };
        side.push(v)?;
        let next = if here.last == before {
            here.other
        } else {
            here.last
        };
        before = v;
        v = next;
    }
    Ok(v)
}

// The way through a node with two neighbours, or half of it where it is a ring.
fn way_through(
    alloc: Global,
    around: &mut [Around],
    v: u32,
    here: Around,
) -> Result<Parting, NoMemory> {
    let mut side = Vec::new(alloc);
    let first = follow(around, v, here.last, &mut side)?;
    let half = side.len() / 2;
    if first == v && half < side.len() {
        let second = side[half];
        side.truncate(half);
        return Ok(Parting {
            side,
            first,
            second,
        });
    }
    side.push(v)?;
    let second = follow(around, v, here.other, &mut side)?;
    Ok(Parting {
        side,
        first,
        second,
    })
}

// The thin ways of a piece with so many nodes and these links, in one pass over them.
pub fn thin_ways(alloc: Global, count: u32, links: &[Link]) -> Result<Vec<Parting>, NoMemory> {
    let mut around = neighbours(alloc, count, links)?;
    let mut ways = Vec::new(alloc);
    for v in 0..count {
        if let Some(here) = enter(&mut around, v) {
            let way = way_through(alloc, &mut around, v, here)?;
            ways.push(way)?;
        }
    }
    Ok(ways)
}
