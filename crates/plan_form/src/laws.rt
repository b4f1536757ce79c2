//! Laws of the rows of plans. Each is a function with nothing to run, whose clause is the law.
ghost use Rattle.plan_form.specs.Laws.{OneReading, PlanHasNoFault, OneFault, PrintedIsReadBack, PrintedIsShort, GoodIsWithinLimits};

/// Rows are those of one well-formed plan at most, in whatever format.
pub fn one_reading()
    ensures { OneReading }
{}

/// The rows of a well-formed plan, in whatever format that can tell it, have no fault but want of memory.
pub fn plan_has_no_fault()
    ensures { PlanHasNoFault }
{}

/// Rows have at most one first fault apart from want of memory.
pub fn one_fault()
    ensures { OneFault }
{}

/// The bytes that print the rows of a well-formed plan are read back as these rows. They are the rows of no other well-formed plan,
/// in whatever format, and have no fault but want of memory, so the plan that is read is the plan that was printed.
pub fn printed_plan_is_read_back()
    ensures { PrintedIsReadBack }
{}

/// The bytes that print the rows of a plan within the limits are at most 134,217,728.
pub fn printed_plan_is_short()
    ensures { PrintedIsShort }
{}

/// A well-formed plan that is good for a topology, with at most four paths for each link, is within the limits.
pub fn good_plan_is_within_limits()
    ensures { GoodIsWithinLimits }
{}
