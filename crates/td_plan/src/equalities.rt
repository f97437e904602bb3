//! Equalities of restrictions: each side may be computed in place of the other.
ghost use Rattle.td_plan.specs.laws.Equalities.{RestrictionAfterLookUp, RestrictionOfJoinOnLeft};
ghost use Rattle.td_plan.specs.laws.Equalities.{RestrictionOfJoinOnRight};
ghost use Rattle.td_plan.specs.laws.Equalities.{RestrictionOfProductOnLeft};
ghost use Rattle.td_plan.specs.laws.Equalities.{RestrictionOfProductOnRight, ValuesAreTold};
ghost use Rattle.td_plan.specs.laws.EqualitiesOfNames.{NamesAreWhatIsAsked, ValuesDependOnNames};
ghost use Rattle.td_plan.specs.laws.EqualitiesOfValues.{AndIsOfBoth, EqualityIsOfOneValue};
ghost use Rattle.td_plan.specs.laws.EqualitiesOfValues.{TotalConditionsRestrict, WhereAfterLookUp};
ghost use Rattle.td_plan.specs.laws.EqualitiesOfValues.{WhereOfIntersectOnLeft, WhereOfJoinOnLeft};
ghost use Rattle.td_plan.specs.laws.EqualitiesOfValues.{WhereOfJoinOnRight, WhereOfMinus};
ghost use Rattle.td_plan.specs.laws.EqualitiesOfValues.{WhereOfTimesOnLeft, WhereOfTimesOnRight};
ghost use Rattle.td_plan.specs.laws.EqualitiesOfValues.{WhereOfUnion};

/// A restriction of a join that asks, in the tuples of the join, of one operand's attributes alone
/// is the join with that operand restricted.
pub fn restriction_of_a_join()
    ensures left { RestrictionOfJoinOnLeft }
    ensures right { RestrictionOfJoinOnRight }
{}

/// A restriction of a product by a condition on one operand's attributes restricts that operand.
pub fn restriction_of_a_product()
    ensures left { RestrictionOfProductOnLeft }
    ensures right { RestrictionOfProductOnRight }
{}

/// A restriction that passes no tuple without these values of a key's attributes is one of what the
/// look-up by them finds.
pub fn restriction_is_a_look_up()
    ensures told { ValuesAreTold }
    ensures after { RestrictionAfterLookUp }
{}

// ---- values

/// A condition that has a truth value in each tuple of a relation restricts it by these.
pub fn total_conditions_restrict()
    ensures { TotalConditionsRestrict }
{}

/// WHERE by such a condition restricts both operands of UNION, and the first of INTERSECT or MINUS.
pub fn where_of_one_heading()
    ensures union { WhereOfUnion }
    ensures intersect { WhereOfIntersectOnLeft }
    ensures minus { WhereOfMinus }
{}

/// WHERE by one that asks of one operand's attributes alone restricts that operand of JOIN or of
/// TIMES.
pub fn where_of_a_join()
    ensures left { WhereOfJoinOnLeft }
    ensures right { WhereOfJoinOnRight }
    ensures times_left { WhereOfTimesOnLeft }
    ensures times_right { WhereOfTimesOnRight }
{}

/// An equality that is TRUE is of one value, and where AND is TRUE both its operands are. WHERE by
/// a condition that fixes each attribute of a key to a value is WHERE of what the look-up by these
/// values finds.
pub fn where_is_a_look_up()
    ensures equal { EqualityIsOfOneValue }
    ensures both { AndIsOfBoth }
    ensures after { WhereAfterLookUp }
{}

/// An expression asks of the tuples in scope only the names that stand as expressions in it: of a
/// tuple, it asks the part on those of its attributes.
pub fn values_depend_on_names()
    ensures values { ValuesDependOnNames }
    ensures part { NamesAreWhatIsAsked }
{}
