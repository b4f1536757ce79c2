// Facts over the definitions alone. Each is the clause of a function that does nothing.
ghost use Rattle.link_solver.specs.Laws.{OneOrNone, TiedNamesNoPath};

/// A verdict over good recipes means that one assignment has the given sums, or none.
pub fn one_or_none()
    ensures { OneOrNone }
{}

/// A verdict over good and tied recipes names no path.
pub fn tied_names_no_path()
    ensures { TiedNamesNoPath }
{}
