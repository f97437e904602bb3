//! Equalities of joins and their kin: each side may be computed in place of the other.
ghost use Rattle.td_algebra.specs.laws.Equalities.{DifferenceIsSemidifference, IntersectionIsJoin};
ghost use Rattle.td_algebra.specs.laws.Equalities.{JoinIsAssociative, JoinIsCommutative};
ghost use Rattle.td_algebra.specs.laws.Equalities.{ProductIsJoin, RestrictionOfJoin};
ghost use Rattle.td_algebra.specs.laws.Equalities.{SemijoinIsProjectedJoin};

/// JOIN: the operands may change places.
pub fn join_is_commutative()
    ensures { JoinIsCommutative }
{}

/// JOIN: of three operands, the last two may be joined first.
pub fn join_is_associative()
    ensures { JoinIsAssociative }
{}

/// TIMES is JOIN where no attribute is common.
pub fn product_is_join()
    ensures { ProductIsJoin }
{}

/// INTERSECT is JOIN of relations of one heading.
pub fn intersection_is_join()
    ensures { IntersectionIsJoin }
{}

/// MATCHING is JOIN, projected on the first one's attributes.
pub fn semijoin_is_projected_join()
    ensures { SemijoinIsProjectedJoin }
{}

/// MINUS is NOT MATCHING of relations of one heading.
pub fn difference_is_semidifference()
    ensures { DifferenceIsSemidifference }
{}

/// A restriction that asks of the first operand's attributes alone passes to it.
pub fn restriction_of_join()
    ensures { RestrictionOfJoin }
{}
