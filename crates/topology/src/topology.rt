// Topologies: connected graphs with a name for each node.
ghost use Rattle.std.specs.Prelude.{◌≡◌, ◌<◌, ◌≤◌, ℕ, Some, length, slice_get, IfOk, IfErr, IfSome, IfNone, OnOk, bytes_eq, false};
ghost use Rattle.std.specs.List.{list_any};
ghost use Rattle.tomo_base.specs.Limits.{link_limit, node_limit};
ghost use Rattle.tomo_base.specs.Network.{AreLinks};
ghost use Rattle.tomo_base.specs.Walks.{IsConnected};
ghost use Rattle.topology.specs.Draft.{IsDraft};
ghost use Rattle.topology.specs.Faults.{AllFine, IsTopoFault, IsUnfit, examined};
ghost use Rattle.rows.specs.Blanks.{trimmed};
ghost use Rattle.topology.specs.Numbered as spec;
ghost use Rattle.topology.specs.Topology.{IsTopology, topo_of, topo_with};

use crate::draft::{Draft, draft_of};
use crate::faults::TopoFault;
use crate::fields::name_in;
use crate::names::Names;
use rows::Rows;
use std::alloc::Global;
use std::marker::Model;
use tomo_base::{Graph, GraphFault, Link, first_apart};

/// A connected graph of 3 to `NODE_LIMIT` nodes and at most `LINK_LIMIT` links, whose nodes have different names of
/// 1 to 64 bytes of UTF-8 each.
#[derive(Drop)]
pub struct Topology {
    names: Names,
    graph: Graph,
}

impl Model for Topology {
    ghost use Rattle.topology.specs.Topology.{Topo, IsTopology};

    ghost Value = { Topo };

    ghost view = { λ a. record { names = a.names; graph = a.graph } };

    ghost invariant = { λ a. IsTopology (record { names = a.names; graph = a.graph }) };
}

impl Topology {
    /// The topology of a graph in which each node has its number, in decimal, for a name. The error hands the graph back, and comes for
    /// want of memory alone. Time is near to the number of nodes.
    pub fn numbered(alloc: Global, g: Graph) -> Result<Topology, Graph>
        requires connected { IsConnected g }
        requires some_nodes { 3 ≤ g.nodes }
        requires few_nodes { g.nodes ≤ node_limit }
        requires few_links { length g.links ≤ link_limit }
        ensures topology { IfOk result (λ t. t ≡ spec.with_numbers g) }
        ensures handed_back { IfErr result (λ back. back ≡ g) }
    {
        match Names::decimals(alloc, g.nodes()) {
            Ok(names) => Ok(Topology { names, graph: g }),
            Err(_) => Err(g),
        }
    }

    /// The graph. It takes no memory.
    pub fn graph(&self) -> &Graph
        ensures graph { result.now ≡ self.now.graph }
        ensures topology { IsTopology self.now }
        ensures connected { IsConnected result.now }
    {
        &self.graph
    }

    /// The name of the node with this number. It takes no memory.
    pub fn name(&self, v: u32) -> &str
        requires { v < self.now.graph.nodes }
        ensures name { slice_get self.now.names v ≡ Some result.now }
        ensures topology { IsTopology self.now }
    {
        self.names.at(v)
    }

    /// `Some(v)` exactly where the node `v` has this name. It takes no memory.
    pub fn find(&self, name: &str) -> Option<u32>
        ensures found { IfSome result (λ v. slice_get self.now.names v ≡ Some name.now) }
        ensures only { (v : ℕ) → slice_get self.now.names v ≡ Some name.now → result ≡ Some v }
        ensures topology { IsTopology self.now }
    {
        self.names.find(name)
    }

    // The node whose name a field holds, without the spaces and tabs at its ends.
    pub(crate) fn node_in(&self, field: &[u8]) -> Option<u32>
        ensures found { IfSome result (λ v. slice_get self.now.names v ≡ Some (trimmed field.now)) }
        ensures none { IfNone result (list_any (bytes_eq (trimmed field.now)) self.now.names ≡ false) }
        ensures topology { IsTopology self.now }
    {
        let names = &self.names;
        let name = name_in(field)?;
        names.find(name)
    }
}

// The graph of these links, where it is connected.
fn connected_graph(alloc: Global, nodes: u32, links: &[Link]) -> Result<Graph, TopoFault>
    requires links { AreLinks nodes links.now }
    requires some_nodes { 3 ≤ nodes }
    requires few_nodes { nodes ≤ node_limit }
    requires few_links { length links.now ≤ link_limit }
    ensures graph { IfOk result (λ g. g ≡ record { nodes = nodes; links = links.now }) }
    ensures connected { IfOk result IsConnected }
    ensures fault { IfErr result (IsUnfit (record { nodes = nodes; links = links.now })) }
{
    let graph = match Graph::new(alloc, nodes, links) {
        Ok(graph) => graph,
        Err(fault) => match fault {
            GraphFault::NoMemory => return Err(TopoFault::NoMemory),
            _ => unreachable!(),
        },
    };
    match first_apart(alloc, &graph)? {
        None => Ok(graph),
        Some(v) => Err(TopoFault::Apart(v)),
    }
}

// The topology of a draft of all rows, or that its nodes are few or apart.
fn topology_of(alloc: Global, draft: Draft) -> Result<Topology, TopoFault>
    requires { IsDraft draft.names draft.links }
    ensures topology { IfOk result (λ t. t ≡ topo_with draft.names draft.links) }
    ensures kept { IfOk result IsTopology }
    ensures fault { IfErr result (IsUnfit (topo_with draft.names draft.links).graph) }
{
    let Draft { names, links } = draft;
    let nodes = names.len();
    if nodes < 3 {
        return Err(TopoFault::Few(nodes));
    }
    let links = links.to_vec(alloc)?;
    let graph = connected_graph(alloc, nodes, &links)?;
    Ok(Topology { names, graph })
}

/// Reads the topology that rows name.
///
/// Each row names one link by its first two fields; further fields are not read. A name is a field
/// without the spaces and tabs at its ends. Nodes and links are numbered by first appearance, and a
/// known link, with its ends in either order, adds nothing. With `header` the first row is not
/// examined.
///
/// The fault of the first row that has one is answered; in one row `Width` comes before `Name`, `Loop`,
/// `Nodes` and `Links`. Where no row has one, `Few` and then `Apart` are tried. The rows are read once,
/// in time near to their number.
pub fn read_topology(alloc: Global, rows: &Rows, header: bool) -> Result<Topology, TopoFault>
    ensures topology { IfOk result (λ t. t ≡ topo_of (examined header rows.now.closed)) }
    ensures fine { OnOk result (AllFine header rows.now.closed (length rows.now.closed)) }
    ensures kept { IfOk result IsTopology }
    ensures fault { IfErr result (IsTopoFault header rows.now.closed) }
{
    let draft = draft_of(alloc, rows, header)?;
    topology_of(alloc, draft)
}
