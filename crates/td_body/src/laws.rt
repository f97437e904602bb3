//! What keys and changes of bodies are to their callers: each function has its contract alone.
ghost use Rattle.td_body.specs.laws.BodyLaws.{DifferencesLeadOver, KeysHoldByMembership};
ghost use Rattle.td_body.specs.laws.BodyLaws.{WholeIsReplaced};

/// A key holds exactly where two members that have one value for each of its names are one.
pub fn keys_hold_by_membership()
    ensures { KeysHoldByMembership }
{}

/// A change by the differences of two relations, one of them the body's, leads to the other.
pub fn differences_lead_over()
    ensures { DifferencesLeadOver }
{}

/// A change that takes all out and puts a relation in leads to that relation.
pub fn whole_is_replaced()
    ensures { WholeIsReplaced }
{}
