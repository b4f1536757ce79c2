// The paths of a plan.
ghost use Rattle.std.specs.Prelude.{◌≡◌, ◌<◌, ◌+◌, ◌-◌, ◌↔◌, ℕ, length, All, IfOk, IfSome, IfNone, IsTrue};
ghost use Rattle.std.specs.declared.cmp.Ordering.TheVariants.{Less};
ghost use Rattle.tomo_base.specs.Search.{entry_at};
ghost use Rattle.tomo_base.specs.Sets.{has};
ghost use Rattle.tomo_base.specs.Walks.{NoneTwice};
ghost use Rattle.tomo_base.specs.Identify.{IsMonitorPath};
ghost use Rattle.plan_form.specs.Order.{path_cmp};
ghost use Rattle.plan_form.specs.Good.{EndsAscend};
ghost use Rattle.cert_check.specs.Faults.{IsFirstBad, AllPlaces, IsGoodPathAt, path_at};

use simple_path::{PathPool, ends_in, is_walk};
use std::alloc::Global;
use std::cmp::Ordering;
use tomo_base::{Graph, NoMemory, NodeSet};

// Whether no node stands in the path twice. `turn` is the number of this path counted from 1; `last` has for each node the turn in which
// it was last met.
fn none_twice(path: &[u32], turn: u32, last: &mut [u32]) -> bool
    requires nodes { All (λ v. v < length last.old) path.now }
    requires earlier { (v : ℕ) → entry_at last.old v < turn }
    ensures once { IsTrue result ↔ NoneTwice path.now }
    ensures size { length last.new ≡ length last.old }
    ensures met { (v : ℕ) → entry_at last.new v < turn + 1 }
{
    for &v in path {
        if last[v as usize] == turn {
            return false;
        }
        last[v as usize] = turn;
    }
    true
}

// Whether the path is a monitor path with its lower end first.
fn is_good_path(g: &Graph, m: &NodeSet, path: &[u32], turn: u32, last: &mut [u32]) -> bool
    requires size { length last.old ≡ g.now.nodes }
    requires earlier { (v : ℕ) → entry_at last.old v < turn }
    ensures good { IsTrue result ↔ (IsMonitorPath g.now (has m.now) path.now × EndsAscend path.now) }
    ensures size { length last.new ≡ length last.old }
    ensures met { (v : ℕ) → entry_at last.new v < turn + 1 }
{
    let _nodes = g.nodes();
    if path.len() < 2 || path[0] >= path[path.len() - 1] {
        return false;
    }
    if !ends_in(m, path) || !is_walk(g, path) {
        return false;
    }
    none_twice(path, turn, last)
}

// Whether the path is greater than the one before it.
fn is_above_last(paths: &PathPool, i: u32) -> bool
    requires { i < length paths.now }
    ensures { IsTrue result ↔ (0 < i → path_cmp (path_at paths.now (i - 1)) (path_at paths.now i) ≡ Less) }
{
    if i == 0 {
        return true;
    }
    paths.path(i - 1).cmp(paths.path(i)) == Ordering::Less
}

// The first path that is no monitor path, begins with its higher end, or is not greater than the path before it. Time is linear in the
// nodes of all paths but for the look-up of links.
pub fn first_bad_path(
    alloc: Global,
    g: &Graph,
    m: &NodeSet,
    paths: &PathPool,
) -> Result<Option<u32>, NoMemory>
    ensures some { IfOk result (λ o. IfSome o (IsFirstBad (length paths.now) (IsGoodPathAt g.now (has m.now) paths.now))) }
    ensures none { IfOk result (λ o. IfNone o (AllPlaces (length paths.now) (IsGoodPathAt g.now (has m.now) paths.now))) }
{
    let mut last = vec![in alloc; 0; g.nodes() as usize]?;
    for i in 0..paths.len() {
        if !is_good_path(g, m, paths.path(i), i + 1, &mut last) || !is_above_last(paths, i) {
            return Ok(Some(i));
        }
    }
    Ok(None)
}
