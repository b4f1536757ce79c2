// The names of rows that are no topology.
ghost use Rattle.std.specs.Prelude.{◌≡◌, ◌<◌, [], length, slice_index_or, string_bytes, IfOk};
ghost use Rattle.topology.specs.Faults.{AllFine, examined};
ghost use Rattle.topology.specs.Topology.{names_of};

use crate::draft::draft_of;
use crate::faults::TopoFault;
use rows::Rows;
use std::alloc::Global;
use tomo_base::NoMemory;

/// The name of the node with a number, in rows of which none has a fault; so that a node that is apart can be named.
pub fn nth_name(alloc: Global, rows: &Rows, header: bool, node: u32) -> Result<String, NoMemory>
    requires fine { AllFine header rows.now.closed (length rows.now.closed) }
    requires node { node < length (names_of (examined header rows.now.closed)) }
    ensures { IfOk result (λ name. string_bytes name ≡ slice_index_or (names_of (examined header rows.now.closed)) node []) }
{
    match draft_of(alloc, rows, header) {
        Ok(draft) => Ok(String::from_str(alloc, draft.names.at(node))?),
        Err(fault) => match fault {
            TopoFault::NoMemory => Err(NoMemory),
            _ => unreachable!(),
        },
    }
}
