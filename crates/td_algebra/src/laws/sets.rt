//! Which tuples a restriction, a union, an intersection and a difference have, and what inclusion
//! and disjointness are.
ghost use Rattle.td_algebra.specs.laws.Membership.{DifferenceByMembership, DisjointByMembership};
ghost use Rattle.td_algebra.specs.laws.Membership.{IntersectionByMembership};
ghost use Rattle.td_algebra.specs.laws.Membership.{RestrictionByMembership, SubsetByMembership};
ghost use Rattle.td_algebra.specs.laws.Membership.{UnionByMembership};

/// WHERE: it is in the operand, and the predicate is TRUE in it.
pub fn restriction_by_membership()
    ensures { RestrictionByMembership }
{}

/// UNION: it is in the one or in the other.
pub fn union_by_membership()
    ensures { UnionByMembership }
{}

/// INTERSECT: it is in both.
pub fn intersection_by_membership()
    ensures { IntersectionByMembership }
{}

/// MINUS: it is in the first and not in the second.
pub fn difference_by_membership()
    ensures { DifferenceByMembership }
{}

/// Inclusion: each tuple of the first is in the second.
pub fn subset_by_membership()
    ensures { SubsetByMembership }
{}

/// Disjointness: no tuple is in both.
pub fn disjoint_by_membership()
    ensures { DisjointByMembership }
{}
