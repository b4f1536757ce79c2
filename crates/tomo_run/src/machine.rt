// The machine that takes in one file after the other, and never sees a device.
ghost use Rattle.std.specs.Prelude.{◌≡◌, ◌<◌, ◌≤◌, ◌^◌, IfOk, IfErr, length};
ghost use Rattle.rows.specs.Rows.{rows_of, byte_count};
ghost use Rattle.plan_form.specs.PlanRows.{row_count};
ghost use Rattle.tomo_run.specs.Table.{files_of};
ghost use Rattle.answers.specs.FileKinds.{limit};
ghost use Rattle.tomo_run.specs.Machine.{files_left, kind_of, start, ready as all_read, with_topology as then_topology, TakesTopology, TakesMonitors, TakesChoice, IsCheckedOf, RefusesFault, GoesOn, TakesPlan, TakesSums, Takes, StepsBy, Fewer, StartsWith};
ghost use Rattle.tomo_run.specs.declared.machine.Wants.TheVariants.{APlan};
ghost use Rattle.tomo_run.specs.declared.table.Command.TheVariants.{OnFiles};
ghost use Rattle.answers.specs.declared.file_kind.FileKind.TheVariants.{RoundFile};

use crate::table::{Command, FileTask, PlanTask, Shape};
use answers::{
    Checked, Chosen, FileInputs, FileKind, Inputs, Measured, MonitorTask, Placed, Planned,
    limit_of, refuse_at, refuse_choice, refuse_fault, refuse_monitors, refuse_plan, refuse_rounds,
    refuse_topology,
};
use cert_check::{Report, check};
use outside::Got;
use plan_form::{Plan, read_plan};
use round_reader::read_rounds;
use rows::{Rows, read_rows};
use std::alloc::Global;
use tomo_base::NoMemory;
use topology::{Topology, read_choice, read_monitors, read_topology};

/// The file that is wanted next, with what was read before it.
#[derive(Drop)]
pub enum Wants {
    /// A topology; its first row may be a header.
    Topology {
        task: FileTask,
        header: bool,
    },
    /// Monitors of a topology.
    Monitors {
        task: MonitorTask,
        topology: Topology,
    },
    /// A choice for a topology.
    AChoice(Topology),
    /// A plan for a topology.
    APlan {
        task: PlanTask,
        topology: Topology,
    },
    /// Sums along the paths of a plan.
    Sums(Checked),
}

/// Where the reading ends: with all inputs, or with the row that refuses one.
#[derive(Drop)]
pub enum End {
    Ready(Inputs),
    Refused(Rows),
}

/// What comes after a file, or before the first.
#[derive(Drop)]
pub enum Next {
    Ask(Wants),
    Stop(End),
}

impl Wants {
    /// What the next file holds.
    pub fn kind(&self) -> FileKind
        ensures { result ≡ kind_of self.now }
    {
        match self {
            Wants::Topology { .. } => FileKind::TopologyFile,
            Wants::Monitors { .. } => FileKind::MonitorFile,
            Wants::AChoice(_) => FileKind::ChoiceFile,
            Wants::APlan { .. } => FileKind::PlanFile,
            Wants::Sums(_) => FileKind::RoundFile,
        }
    }
}

/// What a command wants first.
pub fn begin(shape: Shape) -> Next
    ensures first { result ≡ start shape }
    ensures count { StartsWith shape result }
{
    match shape.command {
        Command::OnFiles(task) => Next::Ask(Wants::Topology {
            task,
            header: shape.header,
        }),
        Command::Drill(numbers) => Next::Stop(End::Ready(Inputs::Drill(numbers))),
    }
}

// The end of the reading, with the last file of a command.
fn ready(files: FileInputs) -> Next
    ensures ends { result ≡ all_read files }
    ensures fewer { Fewer 1 result }
{
    Next::Stop(End::Ready(Inputs::OnFiles(files)))
}

// What a task does with its topology.
fn with_topology(task: FileTask, topology: Topology) -> Next
    ensures after { result ≡ then_topology task topology }
    ensures fewer { Fewer (length (files_of (OnFiles task))) result }
{
    match task {
        FileTask::OnTopology(task) => ready(FileInputs::OnTopology(task, topology)),
        FileTask::OnMonitors(task) => Next::Ask(Wants::Monitors { task, topology }),
        FileTask::OnChoice => Next::Ask(Wants::AChoice(topology)),
        FileTask::OnPlan(task) => Next::Ask(Wants::APlan { task, topology }),
    }
}

// What comes after a file that was taken in.
type Taken = Result<Next, NoMemory>;

// Takes in a topology.
fn take_topology(alloc: Global, task: FileTask, header: bool, name: &str, rows: &Rows) -> Taken
    ensures taken { IfOk result (λ next. TakesTopology task header name.now rows.now.closed next) }
    ensures fewer { IfOk result (λ next. Fewer (length (files_of (OnFiles task))) next) }
{
    match read_topology(alloc, rows, header) {
        Ok(topology) => Ok(with_topology(task, topology)),
        Err(fault) => Ok(Next::Stop(End::Refused(refuse_topology(
            alloc, name, rows, header, fault,
        )?))),
    }
}

// Takes in monitors.
fn take_monitors(
    alloc: Global,
    task: MonitorTask,
    topology: Topology,
    name: &str,
    rows: &Rows,
) -> Taken
    ensures taken { IfOk result (λ next. TakesMonitors task topology name.now rows.now.closed next) }
    ensures fewer { IfOk result (λ next. Fewer 1 next) }
{
    match read_monitors(alloc, &topology, rows) {
        Ok(monitors) => Ok(ready(FileInputs::OnMonitors(task, Placed { topology, monitors }))),
        Err(fault) => Ok(Next::Stop(End::Refused(refuse_monitors(alloc, name, fault)?))),
    }
}

// Takes in a choice.
fn take_choice(alloc: Global, topology: Topology, name: &str, rows: &Rows) -> Taken
    ensures taken { IfOk result (λ next. TakesChoice topology name.now rows.now.closed next) }
    ensures fewer { IfOk result (λ next. Fewer 1 next) }
{
    match read_choice(alloc, &topology, rows) {
        Ok(choice) => Ok(ready(FileInputs::OnChoice(Chosen { topology, choice }))),
        Err(fault) => Ok(Next::Stop(End::Refused(refuse_choice(alloc, name, fault)?))),
    }
}

// A plan that is good, or the row that refuses it for its first fault.
fn good_plan(
    alloc: Global,
    topology: Topology,
    plan: Plan,
    name: &str,
) -> Result<Result<Checked, Rows>, NoMemory>
    requires { row_count plan < 2 ^ 32 }
    ensures good { IfOk result (λ r. IfOk r (IsCheckedOf topology plan)) }
    ensures refused { IfOk result (λ r. IfErr r (RefusesFault topology plan name.now)) }
{
    match check(alloc, &topology, &plan)? {
        Report::Good { .. } => Ok(Ok(Checked { topology, plan })),
        Report::Bad(fault) => Ok(Err(refuse_fault(alloc, name, fault)?)),
    }
}

// What a task does with its topology and plan.
fn with_plan(alloc: Global, task: PlanTask, topology: Topology, plan: Plan, name: &str) -> Taken
    requires { row_count plan < 2 ^ 32 }
    ensures after { IfOk result (λ next. GoesOn task topology plan name.now next) }
    ensures fewer { IfOk result (λ next. Fewer (files_left (APlan task topology)) next) }
{
    match task {
        PlanTask::Check => Ok(ready(FileInputs::Check(Planned { topology, plan }))),
        PlanTask::Migrate => match good_plan(alloc, topology, plan, name)? {
            Ok(checked) => Ok(ready(FileInputs::Migrate(checked))),
            Err(refusal) => Ok(Next::Stop(End::Refused(refusal))),
        },
        PlanTask::Solve => match good_plan(alloc, topology, plan, name)? {
            Ok(checked) => Ok(Next::Ask(Wants::Sums(checked))),
            Err(refusal) => Ok(Next::Stop(End::Refused(refusal))),
        },
    }
}

// Takes in a plan.
fn take_plan(alloc: Global, task: PlanTask, topology: Topology, name: &str, rows: &Rows) -> Taken
    requires { byte_count rows.now.closed < 2 ^ 31 }
    ensures taken { IfOk result (λ next. TakesPlan task topology name.now rows.now.closed next) }
    ensures fewer { IfOk result (λ next. Fewer (files_left (APlan task topology)) next) }
{
    match read_plan(alloc, rows) {
        Ok(plan) => with_plan(alloc, task, topology, plan, name),
        Err(fault) => Ok(Next::Stop(End::Refused(refuse_plan(alloc, name, fault)?))),
    }
}

// Takes in rounds of sums along the paths of a plan.
fn take_sums(alloc: Global, checked: Checked, name: &str, rows: &Rows) -> Taken
    requires { length rows.now.closed ≤ limit RoundFile }
    ensures taken { IfOk result (λ next. TakesSums checked name.now rows.now.closed next) }
    ensures fewer { IfOk result (λ next. Fewer 1 next) }
{
    match read_rounds(alloc, checked.plan.paths().len(), rows) {
        Ok(rounds) => Ok(ready(FileInputs::Solve(Measured { checked, rounds }))),
        Err(fault) => Ok(Next::Stop(End::Refused(refuse_rounds(alloc, name, fault)?))),
    }
}

// Takes in a file that is within its limit, and gives its bytes back once its rows are read.
fn take_in(alloc: Global, wants: Wants, name: &str, content: Vec<u8>) -> Taken
    requires { length content.items ≤ limit (kind_of wants) }
    ensures taken { IfOk result (λ next. Takes wants name.now (rows_of content.items) next) }
    ensures fewer { IfOk result (λ next. Fewer (files_left wants) next) }
{
    let rows = read_rows(alloc, &content)?;
    drop(content);
    match wants {
        Wants::Topology { task, header } => take_topology(alloc, task, header, name, &rows),
        Wants::Monitors { task, topology } => take_monitors(alloc, task, topology, name, &rows),
        Wants::AChoice(topology) => take_choice(alloc, topology, name, &rows),
        Wants::APlan { task, topology } => take_plan(alloc, task, topology, name, &rows),
        Wants::Sums(checked) => take_sums(alloc, checked, name, &rows),
    }
}

/// Takes in what was read of the file that was wanted.
pub fn feed(alloc: Global, wants: Wants, name: &str, got: Got, content: Vec<u8>) -> Taken
    requires { length content.items ≤ limit (kind_of wants) }
    ensures steps { IfOk result (λ next. StepsBy wants name.now got content.items next) }
    ensures fewer { IfOk result (λ next. Fewer (files_left wants) next) }
{
    match got {
        Got::TooLong => Ok(Next::Stop(End::Refused(refuse_at(
            alloc,
            name,
            "long",
            limit_of(wants.kind()),
        )?))),
        Got::Whole => take_in(alloc, wants, name, content),
    }
}
