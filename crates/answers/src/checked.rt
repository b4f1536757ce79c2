// Plans for a topology, before and after they were checked, and sums along their paths.
ghost use Rattle.std.specs.Prelude.{◌≡◌, ◌<◌, ◌≤◌, ◌^◌, length, All};
ghost use Rattle.plan_form.specs.Good.{IsGoodPlan};
ghost use Rattle.plan_form.specs.PlanRows.{row_count};
ghost use Rattle.answers.specs.OneProof.{good_plan_prop};
ghost use Rattle.answers.specs.FileKinds.{limit};
ghost use Rattle.answers.specs.declared.file_kind.FileKind.TheVariants.{RoundFile};

use plan_form::Plan;
use round_reader::Rounds;
use topology::Topology;

/// A topology, and a plan that is said to be one for it.
#[derive(Drop)]
pub struct Planned {
    pub topology: Topology,
    pub plan: Plan,
}

/// A topology, and a plan that is good for it. The rows of the plan can be counted in 32 bits, as those of a file can.
#[derive(Drop)]
pub struct Checked {
    pub topology: Topology,
    pub plan: Plan,
    ghost good: { IsGoodPlan topology.names topology.graph plan } by { good_plan_prop topology.names topology.graph plan },
    ghost few_rows: { row_count plan < 2 ^ 32 },
}

/// A good plan, and rounds with one sum for each of its paths. There are no more rounds than their file may have bytes.
#[derive(Drop)]
pub struct Measured {
    pub checked: Checked,
    pub rounds: Rounds,
    ghost widths: { All (λ sums. length sums ≡ length checked.plan.paths) rounds },
    ghost few: { length rounds ≤ limit RoundFile },
}
