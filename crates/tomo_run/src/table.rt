// The table of commands: the words that each takes, and the shape of a command line.
ghost use Rattle.std.specs.Prelude.{◌≡◌, ◌<◌, ◌≤◌, [], length, drop, Option, Some, None, slice_index_or};
ghost use Rattle.tomo_run.specs.Table.{task_of, files_of, other_words as words_behind, first_place, begins_option, no_options, with_one_more as longer, fitted, shaped, drill_shape as shape_of_drill, shape, shape as shape_in, last_words};

use crate::numbers::drill_numbers;
use answers::{DrillNumbers, MonitorTask, TopologyTask};
use tomo_base::Words;

/// What the program is asked to do.
#[derive(Clone, Copy, Debug, PartialEq, Eq)]
pub enum Command {
    OnFiles(FileTask),
    Drill(DrillNumbers),
}

/// What is done with files, the first of which is that of a topology.
#[derive(Clone, Copy, Debug, PartialEq, Eq)]
pub enum FileTask {
    OnTopology(TopologyTask),
    OnMonitors(MonitorTask),
    OnChoice,
    OnPlan(PlanTask),
}

/// What is done with a topology and a plan.
#[derive(Clone, Copy, Debug, PartialEq, Eq)]
pub enum PlanTask {
    Check,
    Migrate,
    Solve,
}

/// What the words say beside the names of files: the command, and whether the topology's first row is a header.
#[derive(Clone, Copy, Debug, PartialEq, Eq)]
pub struct Shape {
    pub command: Command,
    pub header: bool,
}

// The table of commands over files: the word of each, and the task that it names.
fn named_task(word: &str) -> Option<FileTask>
    ensures { result ≡ task_of word.now }
{
    match word {
        "plan" => Some(FileTask::OnTopology(TopologyTask::Plan)),
        "components" => Some(FileTask::OnTopology(TopologyTask::Components)),
        "trees" => Some(FileTask::OnTopology(TopologyTask::Trees)),
        "judge" => Some(FileTask::OnMonitors(MonitorTask::Judge)),
        "paths" => Some(FileTask::OnMonitors(MonitorTask::Paths)),
        "link" => Some(FileTask::OnMonitors(MonitorTask::Link)),
        "check" => Some(FileTask::OnPlan(PlanTask::Check)),
        "migrate" => Some(FileTask::OnPlan(PlanTask::Migrate)),
        "solve" => Some(FileTask::OnPlan(PlanTask::Solve)),
        _ => None,
    }
}

// How many files a command reads: what its task stands on says which.
fn file_count(command: Command) -> u32
    ensures count { result ≡ length (files_of command) }
    ensures few { result ≤ 3 }
{
    match command {
        Command::OnFiles(FileTask::OnTopology(_)) => 1,
        Command::OnFiles(FileTask::OnMonitors(_)) => 2,
        Command::OnFiles(FileTask::OnChoice) => 2,
        Command::OnFiles(FileTask::OnPlan(PlanTask::Check | PlanTask::Migrate)) => 2,
        Command::OnFiles(FileTask::OnPlan(PlanTask::Solve)) => 3,
        Command::Drill(_) => 0,
    }
}

// How many words a command takes after its files.
fn other_words(command: Command) -> u32
    ensures count { result ≡ words_behind command }
    ensures few { result ≤ 3 }
{
    match command {
        Command::OnFiles(FileTask::OnMonitors(MonitorTask::Link)) => 2,
        Command::OnFiles(_) => 0,
        Command::Drill(_) => 3,
    }
}

// Whether a word begins with two dashes.
fn is_option(word: &str) -> bool
    ensures { result ≡ begins_option word.now }
{
    word.starts_with("--")
}

// Whether no word from a place on begins with two dashes.
fn has_no_options(words: &Words, start: u32) -> bool
    requires { start ≤ length words.now }
    ensures { result ≡ no_options (drop start words.now) }
{
    for place in start..words.len() {
        if is_option(words.at(place)) {
            return false;
        }
    }
    true
}

impl Shape {
    /// The place of the first file among the words.
    pub fn first(&self) -> u32
        ensures { result ≡ first_place self.now.header }
    {
        if self.header { 2 } else { 1 }
    }
}

// The shape of words that begin with the word of a drill.
fn drill_shape(words: &Words) -> Option<Shape>
    ensures { result ≡ shape_of_drill words.now }
{
    if words.len() != 4 {
        return None;
    }
    let numbers = drill_numbers(words)?;
    Some(Shape {
        command: Command::Drill(numbers),
        header: false,
    })
}

// The task that the same word names where one file more follows.
fn with_one_more(task: FileTask) -> Option<FileTask>
    ensures { result ≡ longer task }
{
    match task {
        FileTask::OnTopology(TopologyTask::Plan) => Some(FileTask::OnChoice),
        _ => None,
    }
}

// The shape of words that fit a task over files.
fn fitted_shape(words: &Words, task: FileTask) -> Option<Shape>
    requires { 0 < length words.now }
    ensures { result ≡ fitted words.now task None }
{
    let command = Command::OnFiles(task);
    let header = words.len() > 1 && words.at(1) == "--header";
    let shape = Shape { command, header };
    let first = shape.first();
    if first <= words.len()
        && words.len() - first == file_count(command) + other_words(command)
        && has_no_options(words, first)
    {
        Some(shape)
    } else {
        None
    }
}

// The shape of words that begin with the word of a task over files: with its files, or with one more.
fn task_shape(words: &Words) -> Option<Shape>
    requires { 0 < length words.now }
    ensures { result ≡ shaped words.now (task_of (slice_index_or words.now 0 [])) }
{
    let task = named_task(words.at(0))?;
    if let Some(shape) = fitted_shape(words, task) {
        return Some(shape);
    }
    let longer = with_one_more(task)?;
    fitted_shape(words, longer)
}

/// The shape of the words, where they have one.
pub fn shape_of(words: &Words) -> Option<Shape>
    ensures { result ≡ shape words.now }
{
    if words.len() == 0 {
        return None;
    }
    if words.at(0) == "drill" {
        drill_shape(words)
    } else {
        task_shape(words)
    }
}

/// One of the words after those that name files, by its number from 0; the empty word where there is none.
pub fn last_word(words: &Words, shape: Shape, number: u32) -> &str
    requires shape { shape_in words.now ≡ Some shape }
    requires number { number ≤ 1 }
    ensures { result.now ≡ slice_index_or (last_words words.now) number [] }
{
    let place = shape.first() + file_count(shape.command) + number;
    if place < words.len() {
        words.at(place)
    } else {
        ""
    }
}
