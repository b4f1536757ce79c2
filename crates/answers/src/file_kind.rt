// The files that the program reads.
ghost use Rattle.std.specs.Prelude.{◌≡◌};
ghost use Rattle.answers.specs.FileKinds.{limit};

/// What a file holds.
#[derive(Clone, Copy, Debug, PartialEq, Eq)]
pub enum FileKind {
    TopologyFile,
    MonitorFile,
    ChoiceFile,
    PlanFile,
    RoundFile,
}

/// The most bytes that a file of a kind may have.
pub fn limit_of(kind: FileKind) -> u64
    ensures { result ≡ limit kind }
{
    match kind {
        FileKind::TopologyFile | FileKind::MonitorFile | FileKind::ChoiceFile => 4_194_304,
        FileKind::PlanFile => 134_217_728,
        FileKind::RoundFile => 16_777_216,
    }
}
