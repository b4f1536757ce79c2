//! What each command answers, over all that it has read: a status, and the rows that are printed. No device is known here.
#![tactic(auto)]

mod answer;
mod checked;
mod chosen;
mod commands;
mod components;
mod drilling;
mod file_kind;
mod growing;
mod inputs;
mod judging;
mod linking;
mod migrating;
mod naming;
mod parts;
mod placed;
mod planning;
mod refusal;
mod reporting;
mod solving;
mod status;
mod tasks;

pub use answer::Answer;
pub use checked::{Checked, Measured, Planned};
pub use chosen::Chosen;
pub use commands::answer_to;
pub use drill::{DRAWN_LINK_LIMIT, DRAWN_NODE_LIMIT};
pub use drilling::DrillNumbers;
pub use file_kind::{FileKind, limit_of};
pub use inputs::{FileInputs, Inputs};
pub use placed::Placed;
pub use refusal::{
    refuse_at, refuse_choice, refuse_fault, refuse_monitors, refuse_plan, refuse_rounds,
    refuse_topology,
};
pub use status::Status;
pub use tasks::{MonitorTask, TopologyTask};
