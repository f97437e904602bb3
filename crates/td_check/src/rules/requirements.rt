//! What the rules ask of types.
ghost use Rattle.td_check.specs.model.OperatorTypes.{over_relation, over_tuple};
ghost use Rattle.td_tree.specs.model.Outcomes.{Answers, Valued, value_if};
ghost use Rattle.td_types.specs.code.Views.{type_view};

use td_tree::cause::Cause;
use td_tree::fault::Fault;
use td_types::heading::Heading;
use td_types::ty::Ty;

/// The heading of a relation type: another type is refused.
pub(crate) fn relation_heading(ty: &Ty) -> Result<&Heading, Fault>
    ensures { Answers (λ h. h.now) result (over_relation (type_view ty.now) Valued) }
{
    match ty {
        Ty::Rel(heading) => Ok(heading),
        _ => Err(Fault::Refused(Cause::TypeMismatch)),
    }
}

/// The heading of a tuple type: another type is refused.
pub(crate) fn tuple_heading(ty: &Ty) -> Result<&Heading, Fault>
    ensures { Answers (λ h. h.now) result (over_tuple (type_view ty.now) Valued) }
{
    match ty {
        Ty::Tup(heading) => Ok(heading),
        _ => Err(Fault::Refused(Cause::TypeMismatch)),
    }
}

/// A requirement of a rule: where it does not hold, the answer is that cause.
pub(crate) fn ask(holds: bool, cause: Cause) -> Result<(), Fault>
    ensures { Answers (λ u. u) result (value_if holds tt cause) }
{
    if holds {
        Ok(())
    } else {
        Err(Fault::Refused(cause))
    }
}
