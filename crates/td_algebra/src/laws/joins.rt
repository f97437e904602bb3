//! Which tuples JOIN and its kin have.
ghost use Rattle.td_algebra.specs.laws.Membership.{CompositionByMembership, JoinByMembership};
ghost use Rattle.td_algebra.specs.laws.Membership.{ProductByMembership, SemidifferenceByMembership};
ghost use Rattle.td_algebra.specs.laws.Membership.{SemijoinByMembership};

/// JOIN: it is in the first on the first one's names, and in the second on the second one's.
pub fn join_by_membership()
    ensures { JoinByMembership }
{}

/// TIMES: the same, where no attribute is common.
pub fn product_by_membership()
    ensures { ProductByMembership }
{}

/// MATCHING: it is in the first, and some tuple of the second agrees with it on the common names.
pub fn semijoin_by_membership()
    ensures { SemijoinByMembership }
{}

/// NOT MATCHING: it is in the first, and no tuple of the second agrees with it on the common names.
pub fn semidifference_by_membership()
    ensures { SemidifferenceByMembership }
{}

/// COMPOSE: some tuples of both agree on the common names, and it agrees with each on its own
/// names.
pub fn composition_by_membership()
    ensures { CompositionByMembership }
{}
