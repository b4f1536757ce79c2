//! A law of the faults of plans, on a function with nothing to run, whose clause is the law.
ghost use Rattle.cert_check.specs.Laws.{GoodHasNoFault};

/// A good plan has no fault: so a plan that is reported bad is not good.
pub fn a_good_plan_has_no_fault()
    ensures { GoodHasNoFault }
{}
