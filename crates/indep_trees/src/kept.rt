// Independent trees, and what contracts see of them.
ghost use Rattle.std.specs.Prelude.{◌≡◌, ◌<◌, ◌≤◌, ◌+◌, ◌*◌, length, All, IfOk};
ghost use Rattle.tomo_base.specs.Limits.{graph_link_limit, graph_node_limit};
ghost use Rattle.tomo_base.specs.Sets.{has};
ghost use Rattle.tomo_base.specs.Walks.{IsConnected};
ghost use Rattle.tomo_base.specs.Identify.{Identifies};
ghost use Rattle.indep_trees.specs.Trees.{IsFree, AreTrees, parent_in, rank_in};

use crate::counting::{all_later, numbered};
use crate::placing::placed;
use crate::shortening::shorten_all;
use ear_order::order;
use extended_graph::extend;
use std::alloc::Global;
use std::marker::Model;
use tomo_base::{Graph, Link, NoMemory, NodeSet};

/// A number for each node, and three parents for each node that is no monitor.
#[derive(Drop)]
pub struct IndepTrees {
    node_count: u32,
    links: Vec<Link>,
    monitors: NodeSet,
    numbers: Vec<u32>,
    first: Vec<u32>,
    second: Vec<u32>,
    third: Vec<u32>,
}

impl Model for IndepTrees {
    ghost use Rattle.std.specs.Prelude.{◌≤◌, length};
    ghost use Rattle.indep_trees.specs.Trees.{Trees};

    ghost Value = { Trees };

    ghost view = { λ t. record { graph = record { nodes = t.node_count; links = t.links.items }; monitors = t.monitors; numbers = t.numbers.items; first = t.first.items; second = t.second.items; third = t.third.items } };

    ghost invariant = { λ t. (t.node_count ≤ length t.numbers.items) × (t.node_count ≤ length t.first.items) × (t.node_count ≤ length t.second.items) × (t.node_count ≤ length t.third.items) };
}

impl IndepTrees {
    /// The parent of a node that is no monitor, in the tree with this number: 0, 1 or 2. It takes no memory.
    pub fn parent(&self, tree: u32, v: u32) -> u32
        requires tree { tree < 3 }
        requires node { IsFree self.now.graph (has self.now.monitors) v }
        ensures { result ≡ parent_in self.now tree v }
    {
        match tree {
            0 => self.first[v as usize],
            1 => self.second[v as usize],
            _ => self.third[v as usize],
        }
    }

    /// The number of a node, from 0 on; no two nodes have the same. It takes no memory.
    pub fn number(&self, v: u32) -> u32
        requires { v < self.now.graph.nodes }
        ensures { result ≡ rank_in self.now v }
    {
        self.numbers[v as usize]
    }
}

/// Independent trees for monitors that identify: the extended graph is ordered by ears, from the one further node to the least monitor with the
/// other further node last, and its nodes are put into one order ear by ear. The parents of a node are a neighbour before it and one behind it
/// there, both on no later ear, and one on a later ear, each such that few steps lead from it to a monitor. After Cheriyan and Maheshwari (1988), and for monitors Ma, He, Leung, Swami and Towsley (2013). It costs an order of ears, and
/// for each ear a pass over the nodes before it.
pub fn trees(alloc: Global, g: &Graph, m: &NodeSet) -> Result<IndepTrees, NoMemory>
    requires connected { IsConnected g.now }
    requires nodes { 3 ≤ g.now.nodes }
    requires few_nodes { g.now.nodes + 2 ≤ graph_node_limit }
    requires few_links { length g.now.links + 2 * length m.now ≤ graph_link_limit }
    requires monitors { All (λ v. v < g.now.nodes) m.now }
    requires identifies { Identifies g.now (has m.now) }
    ensures graph { IfOk result (λ t. t.graph ≡ g.now) }
    ensures monitors { IfOk result (λ t. t.monitors ≡ m.now) }
    ensures trees { IfOk result AreTrees }
{
    let n = g.nodes();
    let t = m.as_slice()[0];
    let wide = extend(alloc, g, m)?;
    let ears = order(alloc, &wide, n, t, n + 1)?;
    let mut places = placed(alloc, n + 2, &ears, n, t)?;
    let mut third = all_later(alloc, n, &wide, &places.ears, m)?;
    let numbers = numbered(alloc, n, &places.order)?;
    shorten_all(alloc, g, m, &ears, &numbers, &mut places, &mut third)?;
    let links = g.links().to_vec(alloc)?;
    let monitors = m.copy(alloc)?;
    Ok(IndepTrees {
        node_count: n,
        links,
        monitors,
        numbers,
        first: places.low,
        second: places.high,
        third,
    })
}
