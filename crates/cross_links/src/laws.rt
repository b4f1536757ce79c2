// Facts over the definitions alone. Each is the clause of a function that does nothing.

ghost use Rattle.cross_links.specs.Laws.{FourPathRecipes, NoBadPartIdentifiesInGraphs};

/// Without a bad part each link has a recipe of at most four monitor paths.
pub fn four_path_recipes()
    ensures { FourPathRecipes }
{}

/// In every graph a set without a bad part identifies.
pub fn no_bad_part_identifies()
    ensures { NoBadPartIdentifiesInGraphs }
{}
