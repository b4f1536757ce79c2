// The commands, each over all that it has read.
ghost use Rattle.std.specs.Prelude.{IfOk};
ghost use Rattle.answers.specs.Status.{IsAnswered};
ghost use Rattle.answers.specs.Answers.{AreFit, Answers, TopologyAnswers, MonitorAnswers};

use crate::answer::Answer;
use crate::components::tell_components;
use crate::drilling::tell_drill;
use crate::growing::tell_trees;
use crate::inputs::{FileInputs, Inputs};
use crate::judging::judge_monitors;
use crate::linking::tell_link;
use crate::migrating::migrate_plan;
use crate::placed::Placed;
use crate::planning::{plan, plan_chosen, plan_paths};
use crate::reporting::check_plan;
use crate::solving::solve_rounds;
use crate::tasks::{MonitorTask, TopologyTask};
use std::alloc::Global;
use tomo_base::NoMemory;
use topology::Topology;

// What is answered of a topology alone.
fn answer_on_topology(
    alloc: Global,
    task: TopologyTask,
    topology: &Topology,
) -> Result<Answer, NoMemory>
    ensures answered { IfOk result (λ a. IsAnswered a.status) }
    ensures answers { IfOk result (λ a. TopologyAnswers task topology.now a.status a.rows.closed) }
{
    match task {
        TopologyTask::Plan => plan(alloc, topology),
        TopologyTask::Components => tell_components(alloc, topology),
        TopologyTask::Trees => tell_trees(alloc, topology),
    }
}

// What is answered of a topology and monitors, for two further words.
fn answer_on_monitors(
    alloc: Global,
    task: MonitorTask,
    placed: &Placed,
    first: &str,
    second: &str,
) -> Result<Answer, NoMemory>
    ensures answered { IfOk result (λ a. IsAnswered a.status) }
    ensures answers { IfOk result (λ a. MonitorAnswers task placed.now first.now second.now a.status a.rows.closed) }
{
    match task {
        MonitorTask::Judge => judge_monitors(alloc, placed),
        MonitorTask::Paths => plan_paths(alloc, placed),
        MonitorTask::Link => tell_link(alloc, placed, first, second),
    }
}

/// What a command answers, over all that it has read. The names of two nodes stand beside the inputs, for the command that tells the
/// recipe of a link; every other command passes them over.
pub fn answer_to(
    alloc: Global,
    inputs: Inputs,
    first: &str,
    second: &str,
) -> Result<Answer, NoMemory>
    requires { AreFit inputs }
    ensures answered { IfOk result (λ a. IsAnswered a.status) }
    ensures answers { IfOk result (λ a. Answers inputs first.now second.now a.status a.rows.closed) }
{
    match inputs {
        Inputs::OnFiles(FileInputs::OnTopology(task, topology)) => {
            answer_on_topology(alloc, task, &topology)
        }
        Inputs::OnFiles(FileInputs::OnMonitors(task, placed)) => {
            answer_on_monitors(alloc, task, &placed, first, second)
        }
        Inputs::OnFiles(FileInputs::OnChoice(chosen)) => plan_chosen(alloc, &chosen),
        Inputs::OnFiles(FileInputs::Check(planned)) => check_plan(alloc, &planned),
        Inputs::OnFiles(FileInputs::Migrate(checked)) => migrate_plan(alloc, &checked),
        Inputs::OnFiles(FileInputs::Solve(measured)) => solve_rounds(alloc, &measured),
        Inputs::Drill(numbers) => tell_drill(alloc, numbers),
    }
}
