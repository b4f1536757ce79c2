// A network that gets one link after the other.
ghost use Rattle.std.specs.Prelude.{◌≡◌, ◌<◌, ◌≤◌, ◌+◌, ◌*◌, ◌++◌, [], ◌∷◌, All, drop, take, find, false, IfOk, OnOk, length};
ghost use Rattle.tomo_base.specs.Network.{any_joins};
ghost use Rattle.drill.specs.Generated.{is_free, IsPair};
ghost use Rattle.drill.specs.Limits.{drawn_link_limit, drawn_node_limit};

use std::alloc::Global;
use std::marker::Model;
use tomo_base::{Graph, GraphFault, Link, NoMemory};

/// The links so far, and for each pair of nodes whether one of them joins it.
#[derive(Drop)]
pub(crate) struct Growing {
    node_count: u32,
    so_far: Vec<Link>,
    marks: Vec<bool>,
}

impl Model for Growing {
    ghost use Rattle.tomo_base.specs.Network.{Network};
    ghost use Rattle.drill.specs.Marks.{IsMarked};

    ghost Value = { Network };

    ghost view = { λ g. record { nodes = g.node_count; links = g.so_far.items } };

    ghost invariant = { λ g. IsMarked g.node_count g.so_far.items g.marks.items };
}

impl Growing {
    /// The network of `n` nodes without links.
    pub(crate) fn new(alloc: Global, n: u32) -> Result<Growing, NoMemory>
        requires { n ≤ drawn_node_limit }
        ensures { IfOk result (λ g. g ≡ record { nodes = n; links = [] }) }
    {
        let nodes = n as usize;
        Ok(Growing {
            node_count: n,
            so_far: Vec::new(alloc),
            marks: vec![in alloc; false; nodes * nodes]?,
        })
    }

    // Where the mark of a pair stands.
    fn place(&self, pair: Link) -> usize
        requires lower_first { pair.a < pair.b }
        requires node { pair.b < self.now.nodes }
        ensures { result ≡ pair.a * self.now.nodes + pair.b }
    {
        pair.a as usize * self.node_count as usize + pair.b as usize
    }

    /// Adds a link that joins a free pair.
    pub(crate) fn add(&mut self, link: Link) -> Result<(), NoMemory>
        requires lower_first { link.a < link.b }
        requires node { link.b < self.old.nodes }
        requires free { any_joins self.old.links link.a link.b ≡ false }
        ensures { OnOk result (self.new ≡ record self.old { links = self.old.links ++ link ∷ [] }) }
    {
        let place = self.place(link);
        self.so_far.push(link)?;
        self.marks[place] = true;
        Ok(())
    }

    // The first of these pairs that is free.
    fn first_free(&self, pairs: &[Link]) -> Option<Link>
        requires { All (IsPair self.now.nodes) pairs.now }
        ensures { result ≡ find (is_free self.now.links) pairs.now }
    {
        for pair in pairs {
            if !self.marks[self.place(*pair)] {
                return Some(*pair);
            }
        }
        None
    }

    /// The first of these pairs that is free, from a place on, and going on at the first after the last. It takes no memory: each pair
    /// that it passes is joined by a link.
    pub(crate) fn next_free(&self, pairs: &[Link], place: usize) -> Option<Link>
        requires pairs { All (IsPair self.now.nodes) pairs.now }
        requires place { place ≤ length pairs.now }
        ensures { result ≡ find (is_free self.now.links) (drop place pairs.now ++ take place pairs.now) }
    {
        match self.first_free(&pairs[place..]) {
            Some(pair) => Some(pair),
            None => self.first_free(&pairs[..place]),
        }
    }

    /// The graph of these links.
    pub(crate) fn to_graph(&self, alloc: Global) -> Result<Graph, NoMemory>
        requires { length self.now.links ≤ drawn_link_limit }
        ensures { IfOk result (λ g. g ≡ self.now) }
    {
        match Graph::new(alloc, self.node_count, &self.so_far) {
            Ok(graph) => Ok(graph),
            Err(fault) => match fault {
                GraphFault::NoMemory => Err(NoMemory),
                _ => unreachable!(),
            },
        }
    }
}
