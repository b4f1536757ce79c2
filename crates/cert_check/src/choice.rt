// The forced and barred nodes of a plan.
ghost use Rattle.std.specs.Prelude.{ℕ, Bool, ◌≡◌, ◌≤◌, ◌<◌, ◌&&◌, nat_lt, length, IfOk, IfSome, IfNone};
ghost use Rattle.tomo_base.specs.Sets.{has};
ghost use Rattle.cert_check.specs.Faults.{IsFirstBad, AllPlaces, IsChosenAt};
ghost use Rattle.tomo_base.specs.Limits.{graph_node_limit};

use std::alloc::Global;
use tomo_base::{NoMemory, NodeSet};

// The set of the numbers below n that stand in a list.
pub fn numbers_below(alloc: Global, n: u32, numbers: &[u32]) -> Result<NodeSet, NoMemory>
    requires { n ≤ graph_node_limit }
    ensures { IfOk result (λ s. (v : ℕ) → has s v ≡ (nat_lt v n && has numbers.now v)) }
{
    let mut set = NodeSet::new(alloc);
    for &v in numbers {
        if v < n {
            set.insert(v)?;
        }
    }
    Ok(set)
}

// The first of the numbers that is not below n, not greater than the one before it, or in the set where it must not be, or not in it where it
// must be.
pub fn first_not_chosen(n: u32, set: &NodeSet, inside: bool, numbers: &[u32]) -> Option<u32>
    ensures some { IfSome result (IsFirstBad (length numbers.now) (IsChosenAt n (has set.now) inside numbers.now)) }
    ensures none { IfNone result (AllPlaces (length numbers.now) (IsChosenAt n (has set.now) inside numbers.now)) }
{
    // The least number that may stand here.
    let mut least = 0;
    for i in 0..numbers.len() {
        let number = numbers[i];
        if number < least || number >= n || set.has(number) != inside {
            return Some(i as u32);
        }
        least = number + 1;
    }
    None
}
