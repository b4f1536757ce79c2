// What is reported of a plan.

/// The first fault of a plan. Places are counted from 0.
#[derive(Clone, Copy, Debug, PartialEq, Eq)]
pub enum Fault {
    /// The first place at which the plan's names and the topology's differ; a list that has ended differs from one that goes on.
    Names(u32),
    /// The first place at which the links differ, their ends compared in order.
    Links(u32),
    /// The first forced node that is no node, not greater than the one before it, or no monitor.
    Must(u32),
    /// The first barred node that is no node, not greater than the one before it, or is forced or a monitor.
    Not(u32),
    /// The first monitor that is no node, or not greater than the one before it.
    Monitor(u32),
    /// The first pocket whose nodes are no ascending nodes, that shares a node with an earlier one, holds a forced node, has more than two
    /// outside neighbours, or another need.
    Pocket(u32),
    /// The first path that is no monitor path, whose first node is not less than its last, or that is not lexicographically greater than
    /// the path before it.
    Path(u32),
    /// The first link without a recipe, or with one whose terms name no paths, do not ascend, or count other than the link twice; or the
    /// number of links, where there are more recipes.
    Recipe(u32),
}

/// What a plan comes to.
#[derive(Clone, Copy, Debug, PartialEq, Eq)]
pub enum Report {
    /// The plan is good: how many monitors it has, and how many its pockets show that every identifying set with the forced nodes has,
    /// at least.
    Good { monitors: u32, bound: u32 },
    /// The first fault.
    Bad(Fault),
}
