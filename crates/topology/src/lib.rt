//! Topologies and monitors, read from rows.
#![tactic(auto)]

mod choice;
mod draft;
mod faults;
mod fields;
mod links;
mod monitors;
mod names;
mod naming;
mod topology;

pub use choice::{Choice, read_choice};
pub use faults::{ChoiceFault, MonFault, TopoFault};
pub use fields::as_name;
pub use monitors::read_monitors;
pub use naming::nth_name;
pub use topology::{Topology, read_topology};
