//! The graph with two further nodes, each linked to every monitor, and what it tells of the monitors.
#![tactic(auto)]

mod extending;

ghost use Rattle.extended_graph.specs.Laws.{ThreeConnectedByMonitors};

pub use extending::extend;

/// A connected graph of at least three nodes is three-connected when it is extended exactly where the monitors have no bad part. After Ma,
/// He, Leung, Swami and Towsley (2013).
pub fn three_connected_by_monitors()
    ensures { ThreeConnectedByMonitors }
{}
