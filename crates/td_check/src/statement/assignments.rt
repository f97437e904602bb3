//! What is required of assignments.
ghost use Rattle.std.specs.Prelude.{◌≡◌, List, Option, map, option_map};
ghost use Rattle.td_check.specs.code.PlaceViews.{scope_at};
ghost use Rattle.td_check.specs.code.ScopeCode.{seen_view};
ghost use Rattle.td_check.specs.model.Scopes.{KnownRelvar, kind_and_heading, known_relvar};
ghost use Rattle.td_check.specs.model.StaticTypes.{named_types, type_of};
ghost use Rattle.td_check.specs.model.StatementTypes.{assignment_checked, both_hold};
ghost use Rattle.td_check.specs.model.StatementTypes.{condition_fits, in_target, is_target};
ghost use Rattle.td_check.specs.model.StatementTypes.{setting_fits, settings_fit, source_fits};
ghost use Rattle.td_check.specs.model.StatementTypes.{type_if_given};
ghost use Rattle.td_tree.specs.model.Outcomes.{Answers, Valued, gathered, with_both, with_value};
ghost use Rattle.td_tree.specs.code.TreeViews.{assignment_view, named_view, tree_view};
ghost use Rattle.td_types.specs.model.Types.{Heading};
ghost use Rattle.td_types.specs.code.Views.{pairs_view, type_view};

use super::parts::{both_hold, condition_fits, relation_fits, type_if_given};
use crate::expression::{check_at, check_named_at};
use crate::place::Place;
use crate::rules::headings::attribute_type;
use crate::rules::requirements::{ask, relation_heading};
use crate::scope::{Kind, Scope};
use td_tree::cause::Cause;
use td_tree::expression::{Expr, NamedExpr};
use td_tree::fault::Fault;
use td_tree::gathering::{Gathering, both};
use td_tree::name::Name;
use td_tree::statement::Assignment;
use td_types::heading::Heading;
use td_types::names::{are_distinct, names_of};
use td_types::ty::Ty;

// ---- targets and sources

/// What is required of a target: it is known, and it is a base relvar.
fn is_target(known: Option<(Kind, &Heading)>) -> Result<(), Fault>
    ensures { (target : Option KnownRelvar)
        → option_map seen_view known.entry ≡ option_map kind_and_heading target
        → Answers (λ u. u) result (is_target target) }
{
    match known {
        None => Err(Fault::Refused(Cause::NameUnknown)),
        Some((kind, _)) => ask(kind == Kind::Base, Cause::NotAssignable),
    }
}

/// What is required of the type of what is assigned, inserted or taken away: it is a relation, of
/// the target's heading where that is known.
fn source_fits(known: Option<(Kind, &Heading)>, ty: &Ty) -> Result<(), Fault>
    ensures { (target : Option KnownRelvar)
        → option_map seen_view known.entry ≡ option_map kind_and_heading target
        → Answers (λ u. u) result (source_fits target (type_view ty.now)) }
{
    match known {
        None => {
            relation_heading(ty)?;
            Ok(())
        }
        Some((_, heading)) => relation_fits(heading, ty),
    }
}

/// What is required of what is assigned, inserted or taken away.
fn check_source(
    scope: &Scope<'_>,
    known: Option<(Kind, &Heading)>,
    source: &Expr,
) -> Result<(), Fault>
    ensures { (target : Option KnownRelvar)
        → option_map seen_view known.entry ≡ option_map kind_and_heading target
        → Answers (λ u. u) result
        (with_value (type_of scope.now (tree_view source.now)) (source_fits target)) }
{
    let ty = check_at(source, &Place::outside(scope))?;
    source_fits(known, &ty)
}

/// What is required of an assignment of a relation, and of `INSERT`, `D_INSERT` and `I_DELETE`.
fn check_assigned(scope: &Scope<'_>, target: &Name, source: &Expr) -> Result<(), Fault>
    ensures { Answers (λ u. u) result
        (assignment_checked scope.now (assignment_view (Assignment.Assign target.now source.now))) }
{
    let known = scope.relvar(target);
    both_hold(is_target(known), check_source(scope, known, source))
}

// ---- what stands in the target's tuples

/// What is required of `DELETE`'s condition.
fn check_deletion(
    scope: &Scope<'_>,
    known: Option<(Kind, &Heading)>,
    condition: Option<&Expr>,
) -> Result<(), Fault>
    ensures { (target : Option KnownRelvar)
        → option_map seen_view known.entry ≡ option_map kind_and_heading target
        → Answers (λ u. u) result (in_target scope.now target (λ inside h. with_value
        (type_if_given inside (option_map (λ e. tree_view e.now) condition.entry))
        condition_fits)) }
{
    match known {
        None => Ok(()),
        Some((_, heading)) => {
            let place = Place::outside(scope).inside(heading)?;
            let ty = type_if_given(condition, &place)?;
            condition_fits(ty.as_ref())
        }
    }
}

/// What is required of `DELETE`.
fn check_delete(scope: &Scope<'_>, target: &Name, condition: Option<&Expr>) -> Result<(), Fault>
    ensures { Answers (λ u. u) result
        (both_hold (is_target (known_relvar scope.now target.now))
        (in_target scope.now (known_relvar scope.now target.now) (λ inside h. with_value
        (type_if_given inside (option_map (λ e. tree_view e.now) condition.entry))
        condition_fits))) }
{
    let known = scope.relvar(target);
    both_hold(is_target(known), check_deletion(scope, known, condition))
}

/// What is required of what an attribute is set to: it is of the attribute's type.
fn setting_fits(heading: &Heading, name: &Name, ty: &Ty) -> Result<(), Fault>
    ensures { Answers (λ u. u) result (setting_fits heading.now (name.now, type_view ty.now)) }
{
    ask(ty == attribute_type(heading, name)?, Cause::TypeMismatch)
}

/// What is required of each setting.
fn each_setting_fits(heading: &Heading, settings: &[(Name, Ty)]) -> Result<(), Fault>
    ensures { Answers (λ u. u) result
        (with_value (gathered (map (setting_fits heading.now) (pairs_view settings.now)))
        (λ _. Valued tt)) }
{
    let mut causes = Gathering::new();
    for (name, ty) in settings {
        causes.add(setting_fits(heading, name, ty))?;
    }
    causes.finish(())
}

/// What is required of settings: each fits, and none sets what another does.
fn settings_fit(heading: &Heading, settings: Vec<(Name, Ty)>) -> Result<(), Fault>
    ensures { Answers (λ u. u) result
        (settings_fit heading.now (pairs_view settings.items)) }
{
    let names = names_of(*settings.allocator(), &settings)?;
    let distinct = ask(are_distinct(&names), Cause::Heading);
    both_hold(distinct, each_setting_fits(heading, &settings))
}

/// What is required of `UPDATE`'s condition and settings in the target's tuples.
fn update_fits(
    place: &Place<'_, '_, '_>,
    heading: &Heading,
    condition: Option<&Expr>,
    settings: &[NamedExpr],
) -> Result<(), Fault>
    ensures { Answers (λ u. u) result
        (with_both
        (type_if_given (scope_at place.now) (option_map (λ e. tree_view e.now) condition.entry))
        (named_types (scope_at place.now) (named_view settings.now))
        (λ c values. both_hold (condition_fits c) (settings_fit heading.now values))) }
{
    let condition = type_if_given(condition, place);
    let (condition, values) = both(condition, check_named_at(settings, place))?;
    let condition = condition_fits(condition.as_ref());
    both_hold(condition, settings_fit(heading, values))
}

/// What is required of `UPDATE`'s condition and settings.
fn check_settings(
    scope: &Scope<'_>,
    known: Option<(Kind, &Heading)>,
    condition: Option<&Expr>,
    settings: &[NamedExpr],
) -> Result<(), Fault>
    ensures { (target : Option KnownRelvar)
        → option_map seen_view known.entry ≡ option_map kind_and_heading target
        → Answers (λ u. u) result (in_target scope.now target (λ inside h. with_both
        (type_if_given inside (option_map (λ e. tree_view e.now) condition.entry))
        (named_types inside (named_view settings.now))
        (λ c values. both_hold (condition_fits c) (settings_fit h values)))) }
{
    match known {
        None => Ok(()),
        Some((_, heading)) => {
            let place = Place::outside(scope).inside(heading)?;
            update_fits(&place, heading, condition, settings)
        }
    }
}

/// What is required of `UPDATE`.
fn check_update(
    scope: &Scope<'_>,
    target: &Name,
    condition: Option<&Expr>,
    settings: &[NamedExpr],
) -> Result<(), Fault>
    ensures { Answers (λ u. u) result
        (both_hold (is_target (known_relvar scope.now target.now))
        (in_target scope.now (known_relvar scope.now target.now) (λ inside h. with_both
        (type_if_given inside (option_map (λ e. tree_view e.now) condition.entry))
        (named_types inside (named_view settings.now))
        (λ c values. both_hold (condition_fits c) (settings_fit h values))))) }
{
    let known = scope.relvar(target);
    both_hold(
        is_target(known),
        check_settings(scope, known, condition, settings),
    )
}

// ---- assignments

/// What is required of one assignment.
fn check_assignment(scope: &Scope<'_>, assignment: &Assignment) -> Result<(), Fault>
    ensures { Answers (λ u. u) result
        (assignment_checked scope.now (assignment_view assignment.now)) }
{
    match assignment {
        Assignment::Assign(target, source)
        | Assignment::Insert(target, source)
        | Assignment::DisjointInsert(target, source)
        | Assignment::IncludedDelete(target, source) => check_assigned(scope, target, source),
        Assignment::Delete(target, condition) => check_delete(scope, target, condition.as_ref()),
        Assignment::Update(_, target, condition, settings) => {
            check_update(scope, target, condition.as_ref(), settings)
        }
    }
}

/// What is required of the assignments of a statement: of each, whether or not another is refused.
pub(crate) fn check_assignments(scope: &Scope<'_>, assignments: &[Assignment]) -> Result<(), Fault>
    ensures { Answers (λ u. u) result
        (with_value
        (gathered (map (assignment_checked scope.now) (map assignment_view assignments.now)))
        (λ _. Valued tt)) }
{
    let mut causes = Gathering::new();
    for assignment in assignments {
        causes.add(check_assignment(scope, assignment))?;
    }
    causes.finish(())
}
