// Lists in order.
ghost use Rattle.std.specs.Prelude.{ℕ, ◌≤◌, List, length, Contains};
ghost use Rattle.std.specs.List.{sum_by};
ghost use Rattle.std.specs.List.Sorted.{IsStrictlySortedBy};
ghost use Rattle.tomo_base.specs.SetLists.{set_cmp, lists_of};

/// Sorts lists in lexicographic order and keeps equal ones once.
pub fn sort_lists(lists: &mut Vec<Vec<u32>>)
    ensures ascending { IsStrictlySortedBy set_cmp (lists_of lists.new.items) }
    ensures kept { (q : List ℕ) → Contains (lists_of lists.old.items) q → Contains (lists_of lists.new.items) q }
    ensures given { (q : List ℕ) → Contains (lists_of lists.new.items) q → Contains (lists_of lists.old.items) q }
    ensures few { length lists.new.items ≤ length lists.old.items }
    ensures sums { (weight : List ℕ → ℕ) → sum_by weight (lists_of lists.new.items) ≤ sum_by weight (lists_of lists.old.items) }
{
    lists.sort_unstable();
    lists.dedup();
}
