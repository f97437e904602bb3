//! What plans stand on: each function has its contract alone.
ghost use Rattle.td_plan.specs.laws.LaterRuns.{PlansServeTheirScope};
ghost use Rattle.td_plan.specs.laws.TotalConditions.{UnfailingConditionsAreTotal};
ghost use Rattle.td_plan.specs.laws.VirtualRelvars.{VirtualRelvarsAreTheirExpressions};

/// A plan may be run in another state than the one in which it was made, if it knows the same.
pub fn plans_serve_their_scope()
    ensures { PlansServeTheirScope }
{}

/// A condition that cannot fail in the tuples of a relation has a truth value in each of them.
pub fn unfailing_conditions_are_total()
    ensures { UnfailingConditionsAreTotal }
{}

/// In a typed database a virtual relvar has the value of its expression where all of the virtual
/// relvars are known.
pub fn virtual_relvars_are_their_expressions()
    ensures { VirtualRelvarsAreTheirExpressions }
{}
