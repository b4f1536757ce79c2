//! What joins the two halves of the headline, as the clauses of functions with nothing to run.
ghost use Rattle.tomo_run.specs.Headline.{PrintedIsTaken, PrintedIsReportedGood, ChosenIsReportedGood, PathsAreReportedGood, PrintedNamesNoPath};

/// A good plan that was printed is taken by `solve`, and never refused.
pub fn a_printed_plan_is_taken()
    ensures { PrintedIsTaken }
{}

/// A plan as promised that was printed is reported good by `check`, with two equal numbers.
pub fn a_printed_plan_is_reported_good()
    ensures { PrintedIsReportedGood }
{}

/// So is a plan under a choice.
pub fn a_chosen_plan_is_reported_good()
    ensures { ChosenIsReportedGood }
{}

/// A plan for given monitors that was printed is reported good by `check`, with the bound 0.
pub fn printed_paths_are_reported_good()
    ensures { PathsAreReportedGood }
{}

/// Over a plan that was printed `solve` refuses no round for a path.
pub fn a_printed_plan_names_no_path()
    ensures { PrintedNamesNoPath }
{}
