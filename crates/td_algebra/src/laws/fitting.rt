//! That each mask, and columns, of a relation's length are what functions give of its tuples.
ghost use Rattle.td_algebra.specs.laws.Fitting.{ListsAreOfFunctions};

/// A mask is some condition's, values are some function's, and columns are some new attributes',
/// wherever there is one place for each tuple.
pub fn lists_are_of_functions()
    ensures { ListsAreOfFunctions }
{}
