// The rows of a drill.
ghost use Rattle.std.specs.Prelude.{◌≡◌, ◌<◌, ◌+◌, ◌^◌, [], ◌∷◌, length, IfOk, OnOk};
ghost use Rattle.plan_form.specs.PlanRows.{AddsRows};
ghost use Rattle.drill.specs.Drill as spec;
ghost use Rattle.drill.specs.Drill.{number_row};

use itoa::Buffer;
use rows::Rows;
use std::alloc::Global;
use tomo_base::NoMemory;

/// The three numbers of a drill.
#[derive(Clone, Copy)]
pub(crate) struct Given {
    pub(crate) seed: u32,
    pub(crate) n: u32,
    pub(crate) l: u32,
}

/// What a drill finds.
#[derive(Clone, Copy)]
pub(crate) struct Found {
    /// How many monitors the plan has.
    pub(crate) monitors: u32,
    /// How many its pockets show to be needed.
    pub(crate) bound: u32,
    /// How many paths there are.
    pub(crate) paths: u32,
    /// The sum over the paths of the sums along each.
    pub(crate) along: u128,
    /// The sum of the solved delays.
    pub(crate) total: u128,
}

// Adds a row with a word and numbers in decimal.
fn add_numbers(rows: &mut Rows, word: &str, numbers: &[u128]) -> Result<(), NoMemory>
    requires none { rows.old.current ≡ [] }
    requires few { length numbers.now + 1 < 2 ^ 32 }
    requires room { length rows.old.closed + 1 < 2 ^ 32 }
    ensures rows { OnOk result (AddsRows rows.old rows.new (number_row word.now numbers.now ∷ [])) }
    ensures count { OnOk result (length rows.new.closed ≡ length rows.old.closed + 1) }
{
    rows.field(word.as_bytes())?;
    for number in numbers {
        let mut digits = Buffer::new();
        rows.field(digits.format(*number).as_bytes())?;
    }
    rows.close()
}

/// The five rows.
pub(crate) fn drill_rows(alloc: Global, given: Given, found: Found) -> Result<Rows, NoMemory>
    ensures { IfOk result (λ rows. rows ≡ record {
      closed = spec.drill_rows given.seed given.n given.l found.monitors found.bound found.paths found.along found.total;
      current = [];
    }) }
{
    let mut rows = Rows::new(alloc);
    let asked = [
        u128::from(given.seed),
        u128::from(given.n),
        u128::from(given.l),
    ];
    add_numbers(&mut rows, "drill", &asked)?;
    add_numbers(&mut rows, "monitors", &[u128::from(found.monitors)])?;
    add_numbers(&mut rows, "bound", &[u128::from(found.bound)])?;
    add_numbers(&mut rows, "paths", &[u128::from(found.paths), found.along])?;
    add_numbers(&mut rows, "total", &[found.total])?;
    Ok(rows)
}
