//! What grouping, aggregates and closure are to their callers: each function has its contract
//! alone.
ghost use Rattle.td_group.specs.laws.Membership.{ClosureByChains, ClosureIsIdempotent};
ghost use Rattle.td_group.specs.laws.Membership.{ClosureIsLeast, GreatestIsAMember};
ghost use Rattle.td_group.specs.laws.Membership.{GroupByMembership, GroupsByMembership};
ghost use Rattle.td_group.specs.laws.Membership.{LeastIsAMember, UngroupUndoesGroup};
ghost use Rattle.td_group.specs.laws.Membership.{UnnestByMembership, UnwrapUndoesWrap};
ghost use Rattle.td_group.specs.laws.Membership.{WrapByMembership};

/// GROUP: some tuple of the operand agrees with it on the rest, and its new attribute has the set
/// of the parts of all such tuples.
pub fn group_by_membership()
    ensures { GroupByMembership }
{}

/// WRAP: some tuple of the operand agrees with it on the rest, and its new attribute has the part
/// of that tuple.
pub fn wrap_by_membership()
    ensures { WrapByMembership }
{}

/// UNGROUP and UNWRAP: it is the rest of some tuple of the operand with a tuple inside the
/// attribute.
pub fn unnest_by_membership()
    ensures { UnnestByMembership }
{}

/// What is grouped and ungrouped again is what it was.
pub fn ungroup_undoes_group()
    ensures { UngroupUndoesGroup }
{}

/// What is wrapped and unwrapped again is what it was.
pub fn unwrap_undoes_wrap()
    ensures { UnwrapUndoesWrap }
{}

/// The groups of SUMMARIZE: each tuple of PER once, with the tuples that agree with it.
pub fn groups_by_membership()
    ensures { GroupsByMembership }
{}

/// MAX is a member that none exceeds, MIN one that exceeds none.
pub fn extremes_are_members()
    ensures greatest { GreatestIsAMember }
    ensures least { LeastIsAMember }
{}

/// TCLOSE: some tuples of the operand are a chain from its one value to its other.
pub fn closure_by_chains()
    ensures { ClosureByChains }
{}

/// The closure is the least transitive relation that includes its operand.
pub fn closure_is_least()
    ensures { ClosureIsLeast }
{}

/// Closing a closure changes nothing.
pub fn closure_is_idempotent()
    ensures { ClosureIsIdempotent }
{}
