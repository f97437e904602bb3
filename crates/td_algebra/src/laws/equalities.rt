//! Equalities of union, intersection, difference and restriction: each side may be computed in
//! place of the other.
ghost use Rattle.td_algebra.specs.laws.Equalities.{IntersectionIsAssociative};
ghost use Rattle.td_algebra.specs.laws.Equalities.{IntersectionIsCommutative};
ghost use Rattle.td_algebra.specs.laws.Equalities.{IntersectionIsIdempotent};
ghost use Rattle.td_algebra.specs.laws.Equalities.{RestrictionOfDifference};
ghost use Rattle.td_algebra.specs.laws.Equalities.{RestrictionOfIntersection, RestrictionOfUnion};
ghost use Rattle.td_algebra.specs.laws.Equalities.{UnionIsAssociative, UnionIsCommutative};
ghost use Rattle.td_algebra.specs.laws.Equalities.{UnionIsIdempotent};

/// UNION is commutative.
pub fn union_is_commutative()
    ensures { UnionIsCommutative }
{}

/// UNION is associative.
pub fn union_is_associative()
    ensures { UnionIsAssociative }
{}

/// The union of a relation with itself is the relation.
pub fn union_is_idempotent()
    ensures { UnionIsIdempotent }
{}

/// INTERSECT is commutative.
pub fn intersection_is_commutative()
    ensures { IntersectionIsCommutative }
{}

/// INTERSECT is associative.
pub fn intersection_is_associative()
    ensures { IntersectionIsAssociative }
{}

/// The intersection of a relation with itself is the relation.
pub fn intersection_is_idempotent()
    ensures { IntersectionIsIdempotent }
{}

/// A restriction of a union is the union of the restrictions.
pub fn restriction_of_a_union()
    ensures { RestrictionOfUnion }
{}

/// A restriction of an intersection is the intersection of the restriction.
pub fn restriction_of_an_intersection()
    ensures { RestrictionOfIntersection }
{}

/// A restriction of a difference is the difference of the restriction.
pub fn restriction_of_a_difference()
    ensures { RestrictionOfDifference }
{}
