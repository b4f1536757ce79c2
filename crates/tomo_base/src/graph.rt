// Graphs, as a list of links with the neighbours of each node.
ghost use Rattle.std.specs.Prelude.{◌≡◌, ◌≤◌, ◌<◌, length, map, IfOk, IfErr, IfSome, IfNone, false};
ghost use Rattle.tomo_base.specs.Limits.{graph_link_limit, graph_node_limit};
ghost use Rattle.tomo_base.specs.Network.{Network, linked, IsGraph};
ghost use Rattle.tomo_base.specs.Table.{in_order, JoinsAt, AreHops, IsTable, IsFirstFault};

use crate::hop_rows::{enter, link_to, turned};
use crate::memory::NoMemory as WantOfMemory;
use std::alloc::Global;
use std::marker::Model;

/// A link of a graph, by its two ends.
#[derive(Clone, Copy, Debug, PartialEq, Eq)]
pub struct Link {
    pub a: u32,
    pub b: u32,
}

/// A neighbour, and the number of the link that leads to it.
#[derive(Clone, Copy, Debug, PartialEq, Eq)]
pub struct Hop {
    pub node: u32,
    pub link: u32,
}

/// Why a list of links is no graph.
#[derive(Clone, Copy, Debug, PartialEq, Eq)]
pub enum GraphFault {
    NoMemory,
    Range(u32),
    Loop(u32),
    Repeat(u32),
}

// Whatever tells want of memory becomes this fault.
impl<E: Into<WantOfMemory> + Drop> From<E> for GraphFault {
    ghost use Rattle.tomo_base.specs.declared.graph.GraphFault.TheVariants.{NoMemory};

    ghost from_gives = { λ _ e. e ≡ NoMemory };

    fn from(_e: E) -> GraphFault {
        GraphFault::NoMemory
    }
}

/// A simple graph, with the neighbours of each node.
#[derive(Drop)]
pub struct Graph {
    node_count: u32,
    links: Vec<Link>,
    hops: Vec<Vec<Hop>>,
}

impl Model for Graph {
    ghost Value = { Network };

    ghost view = { λ g. record { nodes = g.node_count; links = g.links.items } };

    ghost invariant = { λ g. IsTable g.node_count g.links.items g.hops.items };
}

impl Graph {
    /// The graph with the nodes 0 to n - 1 and these links, each turned so that its lower end comes first. The error is want of memory, or
    /// the first fault of the list: the first link, by its place from 0, that has an end which is no node, joins a node to itself, or joins
    /// the nodes of an earlier one; where a link has more than one of these, the first named.
    pub fn new(alloc: Global, n: u32, links: &[Link]) -> Result<Graph, GraphFault>
        requires few_nodes { n ≤ graph_node_limit }
        requires few_links { length links.now ≤ graph_link_limit }
        ensures nodes { IfOk result (λ g. g.nodes ≡ n) }
        ensures links { IfOk result (λ g. g.links ≡ map in_order links.now) }
        ensures graph { IfOk result (λ g. IsGraph g) }
        ensures fault { IfErr result (IsFirstFault n links.now) }
    {
        let mut kept: Vec<Link> = Vec::new(alloc);
        let mut rows: Vec<Vec<Hop>> = Vec::new(alloc);
        for _ in 0..n {
            rows.push(Vec::new(alloc))?;
        }
        for (i, given) in links.iter().enumerate() {
            let link = turned(*given);
            let number = i as u32;
            if link.b >= n {
                return Err(GraphFault::Range(number));
            }
            if link.a == link.b {
                return Err(GraphFault::Loop(number));
            }
            if link_to(&rows[link.a as usize], link.b).is_some() {
                return Err(GraphFault::Repeat(number));
            }
            enter(&mut rows, link, number)?;
            kept.push(link)?;
        }
        Ok(Graph {
            node_count: n,
            links: kept,
            hops: rows,
        })
    }

    /// How many nodes there are. It takes no memory.
    pub fn nodes(&self) -> u32
        ensures nodes { result ≡ self.now.nodes }
        ensures few { result ≤ graph_node_limit }
        ensures graph { IsGraph self.now }
    {
        self.node_count
    }

    /// The links, in the order in which they were given, each with its lower end first. It takes no memory.
    pub fn links(&self) -> &[Link]
        ensures links { result.now ≡ self.now.links }
        ensures few { length result.now ≤ graph_link_limit }
        ensures graph { IsGraph self.now }
    {
        &self.links
    }

    /// The neighbours of a node, ascending, each with the number of the link to it. It takes no memory.
    pub fn hops(&self, v: u32) -> &[Hop]
        requires { v < self.now.nodes }
        ensures { AreHops self.now.links v result.now }
    {
        &self.hops[v as usize]
    }

    /// The number of the link between two nodes, where there is one. It takes no memory: a binary search among the neighbours of the node
    /// that has fewer.
    pub fn between(&self, a: u32, b: u32) -> Option<u32>
        requires first { a < self.now.nodes }
        requires second { b < self.now.nodes }
        ensures found { IfSome result (λ i. JoinsAt self.now.links i a b) }
        ensures none { IfNone result (linked self.now a b ≡ false) }
    {
        let (first, second) = (self.hops(a), self.hops(b));
        if first.len() <= second.len() {
            link_to(first, b)
        } else {
            link_to(second, a)
        }
    }
}
