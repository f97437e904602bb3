//! That what the operators give of relations are relations.
ghost use Rattle.td_algebra.specs.laws.Results.{ResultsAreRelations};

/// Of relations each operator gives a relation.
pub fn results_are_relations()
    ensures { ResultsAreRelations }
{}
