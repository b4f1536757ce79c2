// Facts over the definitions alone. Each is the clause of a function that does nothing.

ghost use Rattle.mmp_place.specs.Laws.{RuleTells, PlacedIsLowest, PlacedIsOne, FreeNodesAreNested};

/// Monitors identify every link exactly where they pass the tests of the rule. After Ma, He, Leung, Swami and Towsley (2013), with
/// tests of its own: a set counts its monitors and its nodes with a neighbour outside.
pub fn rule_tells()
    ensures { RuleTells }
{}

/// What the rule places is the lowest set.
pub fn placed_is_lowest()
    ensures { PlacedIsLowest }
{}

/// The rule places just one set, in whatever order sets of one kind are filled.
pub fn placed_is_one()
    ensures { PlacedIsOne }
{}

/// The free nodes of two sets that the rule fills, those with all neighbours in their set, are nested or disjoint.
pub fn free_nodes_are_nested()
    ensures { FreeNodesAreNested }
{}
