// What a command has read, with what is to be done with it.
use crate::checked::{Checked, Measured, Planned};
use crate::chosen::Chosen;
use crate::drilling::DrillNumbers;
use crate::placed::Placed;
use crate::tasks::{MonitorTask, TopologyTask};
use topology::Topology;

/// What was read from files, with the task.
#[derive(Drop)]
pub enum FileInputs {
    /// A topology alone.
    OnTopology(TopologyTask, Topology),
    /// A topology and monitors of it.
    OnMonitors(MonitorTask, Placed),
    /// A topology and a choice, under which it is to be planned.
    OnChoice(Chosen),
    /// A plan that is to be checked.
    Check(Planned),
    /// A good plan that is to be printed in the newest format.
    Migrate(Checked),
    /// Rounds that are to be solved.
    Solve(Measured),
}

/// A command with all that it reads: files, or the numbers of a drill.
#[derive(Drop)]
pub enum Inputs {
    OnFiles(FileInputs),
    Drill(DrillNumbers),
}
