// Refusals: one row that names what is refused, why, and where.
ghost use Rattle.std.specs.Prelude.{◌≡◌, ◌≢◌, IfOk, decimal};
ghost use Rattle.topology.specs.Topology.{names_of};
ghost use Rattle.topology.specs.Faults.{examined, IsTopoFault};
ghost use Rattle.answers.specs.Refusals.{refused, topology_reason, topology_place, monitor_reason, monitor_place, choice_reason, choice_place, plan_reason, plan_place, check_reason, fault_number, round_reason, round_place};

use cert_check::Fault;
use itoa::Buffer;
use plan_form::PlanFault;
use round_reader::RoundFault;
use rows::Rows;
use std::alloc::Global;
use tomo_base::NoMemory;
use topology::{ChoiceFault, MonFault, TopoFault, nth_name};

/// The row that refuses a word for a reason, at a place.
pub fn refuse(alloc: Global, word: &str, reason: &str, place: &str) -> Result<Rows, NoMemory>
    ensures { IfOk result (λ rows. rows ≡ refused word.now reason.now place.now) }
{
    let mut rows = Rows::new(alloc);
    rows.field(b"refused")?;
    rows.field(word.as_bytes())?;
    rows.field(reason.as_bytes())?;
    rows.field(place.as_bytes())?;
    rows.close()?;
    Ok(rows)
}

/// The same with a number as the place.
pub fn refuse_at(alloc: Global, word: &str, reason: &str, place: u64) -> Result<Rows, NoMemory>
    ensures { IfOk result (λ rows. rows ≡ refused word.now reason.now (decimal place)) }
{
    let mut digits = Buffer::new();
    refuse(alloc, word, reason, digits.format(place))
}

/// The row that refuses a topology.
pub fn refuse_topology(
    alloc: Global,
    word: &str,
    rows: &Rows,
    header: bool,
    fault: TopoFault,
) -> Result<Rows, NoMemory>
    requires { IsTopoFault header rows.now.closed fault }
    ensures cause { IfOk result (λ refusal. fault ≢ TopoFault.NoMemory) }
    ensures row { IfOk result (λ refusal. refusal ≡ refused word.now (topology_reason fault) (topology_place (names_of (examined header rows.now.closed)) fault)) }
{
    match fault {
        TopoFault::NoMemory => Err(NoMemory),
        TopoFault::Width(row) => refuse_at(alloc, word, "width", u64::from(row)),
        TopoFault::Name(row) => refuse_at(alloc, word, "name", u64::from(row)),
        TopoFault::Loop(row) => refuse_at(alloc, word, "loop", u64::from(row)),
        TopoFault::Nodes(row) => refuse_at(alloc, word, "nodes", u64::from(row)),
        TopoFault::Links(row) => refuse_at(alloc, word, "links", u64::from(row)),
        TopoFault::Few(nodes) => refuse_at(alloc, word, "few", u64::from(nodes)),
        TopoFault::Apart(node) => {
            let name = nth_name(alloc, rows, header, node)?;
            refuse(alloc, word, "apart", name.as_str())
        }
    }
}

/// The row that refuses monitors.
pub fn refuse_monitors(alloc: Global, word: &str, fault: MonFault) -> Result<Rows, NoMemory>
    ensures cause { IfOk result (λ refusal. fault ≢ MonFault.NoMemory) }
    ensures row { IfOk result (λ refusal. refusal ≡ refused word.now (monitor_reason fault) (monitor_place fault)) }
{
    match fault {
        MonFault::NoMemory => Err(NoMemory),
        MonFault::Unknown(row) => refuse_at(alloc, word, "unknown", u64::from(row)),
    }
}

/// The row that refuses a choice.
pub fn refuse_choice(alloc: Global, word: &str, fault: ChoiceFault) -> Result<Rows, NoMemory>
    ensures cause { IfOk result (λ refusal. fault ≢ ChoiceFault.NoMemory) }
    ensures row { IfOk result (λ refusal. refusal ≡ refused word.now (choice_reason fault) (choice_place fault)) }
{
    match fault {
        ChoiceFault::NoMemory => Err(NoMemory),
        ChoiceFault::Width(row) => refuse_at(alloc, word, "width", u64::from(row)),
        ChoiceFault::Word(row) => refuse_at(alloc, word, "word", u64::from(row)),
        ChoiceFault::Unknown(row) => refuse_at(alloc, word, "unknown", u64::from(row)),
        ChoiceFault::Clash(row) => refuse_at(alloc, word, "clash", u64::from(row)),
    }
}

/// The row that refuses a plan.
pub fn refuse_plan(alloc: Global, word: &str, fault: PlanFault) -> Result<Rows, NoMemory>
    ensures cause { IfOk result (λ refusal. fault ≢ PlanFault.NoMemory) }
    ensures row { IfOk result (λ refusal. refusal ≡ refused word.now (plan_reason fault) (plan_place fault)) }
{
    match fault {
        PlanFault::NoMemory => Err(NoMemory),
        PlanFault::Record(row) => refuse_at(alloc, word, "record", u64::from(row)),
        PlanFault::Number(row) => refuse_at(alloc, word, "number", u64::from(row)),
        PlanFault::Order(row) => refuse_at(alloc, word, "order", u64::from(row)),
        PlanFault::Missing(rows) => refuse_at(alloc, word, "missing", u64::from(rows)),
        PlanFault::After(row) => refuse_at(alloc, word, "after", u64::from(row)),
    }
}

// Why a plan with a fault is refused: the part that has it.
fn reason_of(fault: Fault) -> &'static str
    ensures { result.now ≡ check_reason fault }
{
    match fault {
        Fault::Names(_) => "check-names",
        Fault::Links(_) => "check-links",
        Fault::Must(_) => "check-must",
        Fault::Not(_) => "check-not",
        Fault::Monitor(_) => "check-monitor",
        Fault::Pocket(_) => "check-pocket",
        Fault::Path(_) => "check-path",
        Fault::Recipe(_) => "check-recipe",
    }
}

// The number of the item that has the fault.
fn number_of(fault: Fault) -> u32
    ensures { result ≡ fault_number fault }
{
    match fault {
        Fault::Names(number) | Fault::Links(number) => number,
        Fault::Must(number) | Fault::Not(number) | Fault::Monitor(number) => number,
        Fault::Pocket(number) | Fault::Path(number) | Fault::Recipe(number) => number,
    }
}

/// The row that refuses a plan with a fault.
pub fn refuse_fault(alloc: Global, word: &str, fault: Fault) -> Result<Rows, NoMemory>
    ensures { IfOk result (λ refusal. refusal ≡ refused word.now (check_reason fault) (decimal (fault_number fault))) }
{
    refuse_at(alloc, word, reason_of(fault), u64::from(number_of(fault)))
}

/// The row that refuses rounds.
pub fn refuse_rounds(alloc: Global, word: &str, fault: RoundFault) -> Result<Rows, NoMemory>
    ensures cause { IfOk result (λ refusal. fault ≢ RoundFault.NoMemory) }
    ensures row { IfOk result (λ refusal. refusal ≡ refused word.now (round_reason fault) (round_place fault)) }
{
    match fault {
        RoundFault::NoMemory => Err(NoMemory),
        RoundFault::Width(row) => refuse_at(alloc, word, "width", u64::from(row)),
        RoundFault::Number(row, field) => {
            let mut digits = Buffer::new();
            let mut place = String::new(alloc);
            place.push_str(digits.format(row))?;
            place.push_str(" ")?;
            place.push_str(digits.format(field))?;
            refuse(alloc, word, "number", place.as_str())
        }
    }
}
