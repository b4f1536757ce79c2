// The names, links and monitors of a plan.
ghost use Rattle.std.specs.Prelude.{◌≡◌, ◌≤◌, length, IfSome, IfNone};
ghost use Rattle.tomo_base.specs.Limits.{graph_link_limit};
ghost use Rattle.cert_check.specs.Faults.{IsFirstWithout, IsFirstBad, AllPlaces, AgreeAt, AscendsAt};

use tomo_base::{Link, Words};
use topology::Topology;

// The first place at which the names differ from the topology's.
pub fn first_other_name(t: &Topology, names: &Words) -> Option<u32>
    ensures some { IfSome result (IsFirstWithout (AgreeAt names.now t.now.names)) }
    ensures none { IfNone result (names.now ≡ t.now.names) }
{
    let (given, count) = (t.graph().nodes(), names.len());
    let both = given.min(count);
    for v in 0..both {
        if names.at(v) != t.name(v) {
            return Some(v);
        }
    }
    if given == count { None } else { Some(both) }
}

// The first place at which the links differ from those given.
pub fn first_other_link(links: &[Link], given: &[Link]) -> Option<u32>
    requires { length given.now ≤ graph_link_limit }
    ensures some { IfSome result (IsFirstWithout (AgreeAt links.now given.now)) }
    ensures none { IfNone result (links.now ≡ given.now) }
{
    let both = links.len().min(given.len());
    for i in 0..both {
        if links[i] != given[i] {
            return Some(i as u32);
        }
    }
    if links.len() == given.len() {
        None
    } else {
        Some(both as u32)
    }
}

// The first of the numbers that is not below n, or not greater than the one before it.
pub fn first_not_ascending(n: u32, numbers: &[u32]) -> Option<u32>
    ensures some { IfSome result (IsFirstBad (length numbers.now) (AscendsAt n numbers.now)) }
    ensures none { IfNone result (AllPlaces (length numbers.now) (AscendsAt n numbers.now)) }
{
    // The least number that may stand here.
    let mut least = 0;
    for i in 0..numbers.len() {
        let number = numbers[i];
        if number < least || number >= n {
            return Some(i as u32);
        }
        least = number + 1;
    }
    None
}
