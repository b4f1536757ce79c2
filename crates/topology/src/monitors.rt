// Monitors, read from rows.
ghost use Rattle.std.specs.Prelude.{◌≡◌, ◌<◌, length, All, IfOk, IfErr, OnOk};
ghost use Rattle.topology.specs.Monitors.{AllKnown, IsMonFault, monitors_of};

use crate::faults::MonFault;
use crate::topology::Topology;
use rows::Rows;
use std::alloc::Global;
use tomo_base::NodeSet;

/// Reads the monitors that rows name.
///
/// They are the nodes of the topology whose names stand in the first fields of the rows, without the
/// spaces and tabs at their ends. A name given twice counts once. `Unknown` is answered at the first
/// row whose name no node has; rows are numbered from 1.
pub fn read_monitors(alloc: Global, t: &Topology, rows: &Rows) -> Result<NodeSet, MonFault>
    ensures monitors { IfOk result (λ set. set ≡ monitors_of t.now.names rows.now.closed) }
    ensures nodes { IfOk result (λ set. All (λ v. v < t.now.graph.nodes) set) }
    ensures known { OnOk result (AllKnown t.now.names rows.now.closed (length rows.now.closed)) }
    ensures fault { IfErr result (IsMonFault t.now.names rows.now.closed) }
{
    let mut monitors = NodeSet::new(alloc);
    for place in 0..rows.len() {
        let Some(v) = t.node_in(rows.at(place, 0)) else {
            return Err(MonFault::Unknown(place + 1));
        };
        monitors.insert(v)?;
    }
    Ok(monitors)
}
