//! What is required of the parts of statements.
ghost use Rattle.std.specs.Prelude.{option_map, ⊤};
ghost use Rattle.td_check.specs.model.OperatorTypes.{if_type};
ghost use Rattle.td_check.specs.code.PlaceViews.{scope_at};
ghost use Rattle.td_check.specs.model.Scopes.{entered_with};
ghost use Rattle.td_check.specs.model.StaticTypes.{type_of};
ghost use Rattle.td_check.specs.model.StatementTypes.{both_hold, condition_fits};
ghost use Rattle.td_check.specs.model.StatementTypes.{relation_fits, type_if_given};
ghost use Rattle.td_tree.specs.model.Outcomes.{Answers, Outcome, with_value};
ghost use Rattle.td_tree.specs.code.TreeViews.{tree_view};
ghost use Rattle.td_types.specs.model.Types.{boolean};
ghost use Rattle.td_types.specs.code.Views.{type_view};

use crate::expression::check_at;
use crate::place::Place;
use crate::rules::requirements::{ask, relation_heading};
use crate::scope::Scope;
use td_tree::cause::Cause;
use td_tree::expression::Expr;
use td_tree::fault::Fault;
use td_tree::gathering::both;
use td_types::heading::Heading;
use td_types::ty::Ty;

/// Both requirements hold; else the least of their causes is named.
pub(crate) fn both_hold(first: Result<(), Fault>, second: Result<(), Fault>) -> Result<(), Fault>
    ensures { (o p : Outcome ⊤) → Answers (λ u. u) first o → Answers (λ u. u) second p
        → Answers (λ u. u) result (both_hold o p) }
{
    both(first, second)?;
    Ok(())
}

/// The type of an expression that may be left out.
pub(crate) fn type_if_given(
    expression: Option<&Expr>,
    place: &Place<'_, '_, '_>,
) -> Result<Option<Ty>, Fault>
    ensures { Answers (option_map type_view) result (type_if_given (scope_at place.now)
        (option_map (λ e. tree_view e.now) expression.entry)) }
{
    match expression {
        None => Ok(None),
        Some(expression) => Ok(Some(check_at(expression, place)?)),
    }
}

/// What is required of a condition's type, where there is a condition: it is BOOLEAN.
pub(crate) fn condition_fits(ty: Option<&Ty>) -> Result<(), Fault>
    ensures { Answers (λ u. u) result
        (condition_fits (option_map (λ t. type_view t.now) ty.entry)) }
{
    match ty {
        None => Ok(()),
        Some(ty) => ask(*ty == Ty::Bool, Cause::TypeMismatch),
    }
}

/// What is required of a condition: it is BOOLEAN.
pub(crate) fn check_condition(condition: &Expr, place: &Place<'_, '_, '_>) -> Result<(), Fault>
    ensures { Answers (λ u. u) result (with_value (type_of (scope_at place.now)
        (tree_view condition.now)) (λ t. if_type boolean t tt)) }
{
    let ty = check_at(condition, place)?;
    ask(ty == Ty::Bool, Cause::TypeMismatch)
}

/// What is required of a condition on the tuples of a heading: it is BOOLEAN there.
pub(crate) fn check_inside(
    scope: &Scope<'_>,
    heading: &Heading,
    condition: &Expr,
) -> Result<(), Fault>
    ensures { Answers (λ u. u) result (with_value (type_of (entered_with heading.now scope.now)
        (tree_view condition.now)) (λ t. if_type boolean t tt)) }
{
    let place = Place::outside(scope).inside(heading)?;
    check_condition(condition, &place)
}

/// What is required of a value for a relvar: it is a relation of its heading.
pub(crate) fn relation_fits(heading: &Heading, ty: &Ty) -> Result<(), Fault>
    ensures { Answers (λ u. u) result (relation_fits heading.now (type_view ty.now)) }
{
    ask(relation_heading(ty)? == heading, Cause::Heading)
}
