// One delay for each link.
ghost use Rattle.std.specs.Prelude.{◌≡◌, length, replicate, IfOk};

use plan_form::Plan;
use std::alloc::Global;
use std::marker::Model;
use tomo_base::NoMemory;

/// Delays, one for each link.
#[derive(Drop)]
pub struct Delays {
    pub(crate) delays: Vec<u64>,
}

impl Model for Delays {
    ghost use Rattle.std.specs.Prelude.{ℕ, List};

    ghost Value = { List ℕ };

    ghost view = { λ d. d.delays.items };
}

impl Delays {
    /// A delay of 0 for each link of a plan.
    pub fn for_plan(alloc: Global, p: &Plan) -> Result<Delays, NoMemory>
        ensures { IfOk result (λ d. d ≡ replicate (length p.now.links) 0) }
    {
        Ok(Delays {
            delays: vec![in alloc; 0; p.links().len()]?,
        })
    }

    /// The delays, in the order of the links. It takes no memory.
    pub fn as_slice(&self) -> &[u64]
        ensures { result.now ≡ self.now }
    {
        &self.delays
    }
}
