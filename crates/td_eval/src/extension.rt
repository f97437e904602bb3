//! The attributes that EXTEND adds or sets.
ghost use Rattle.std.specs.Prelude.{◌≡◌, IfOk, List, length, not, reverse};
ghost use Rattle.std.specs.List.{list_all};
ghost use Rattle.td_algebra.specs.code.Columns.{columns_view};
ghost use Rattle.td_check.specs.model.OperatorTypes.{extended_by};
ghost use Rattle.td_check.specs.model.Scopes.{entered_with};
ghost use Rattle.td_check.specs.model.StaticTypes.{named_types};
ghost use Rattle.td_eval.specs.code.NewColumns.{AreColumnsFor, named_columns};
ghost use Rattle.td_eval.specs.model.OperatorValues.{extended_by_settings, extended_value};
ghost use Rattle.td_eval.specs.code.LentWorlds.{IsLentWorld, seen_by};
ghost use Rattle.td_eval.specs.model.Worlds.{with_tuples};
ghost use Rattle.td_tree.specs.model.Outcomes.{Answers, Outcome, Valued, gathered, with_value};
ghost use Rattle.td_tree.specs.code.TreeViews.{named_view};
ghost use Rattle.td_types.specs.model.Headings.{has_attribute};
ghost use Rattle.td_types.specs.code.Views.{pairs_view};
ghost use Rattle.td_value.specs.model.Values.{Tuple, Val};

use crate::lent_world::LentWorld;
use crate::operators::relational::{as_value, fit};
use crate::operators::tuplewise::extension_value;
use std::alloc::Global;
use td_algebra::extension::Column;
use td_algebra::setting::set_all;
use td_body::body::Body;
use td_check::expression::check_parts;
use td_tree::cause::Cause;
use td_tree::expression::NamedExpr;
use td_tree::fault::Fault;
use td_tree::name::Name;
use td_types::heading::Heading;
use td_types::names::{are_distinct, names_of};
use td_types::ty::Ty;
use td_value::relation::Rel;
use td_value::tuple::Tuple;
use td_value::value::Value;

/// Whether none of the names is one of the heading's.
fn are_apart(attributes: &[(Name, Ty)], heading: &Heading) -> bool
    ensures { result ≡ list_all (λ a. not (has_attribute a.0 heading.now))
        (pairs_view attributes.now) }
{
    attributes
        .iter()
        .all(|attribute| heading.get(&attribute.0).is_none())
}

/// New attributes: refused where a name comes twice or is one of the heading's.
pub fn ask_new(alloc: Global, attributes: &[(Name, Ty)], heading: &Heading) -> Result<(), Fault>
    ensures { Answers (λ u. pairs_view attributes.now) result (with_value
        (extended_by heading.now (pairs_view attributes.now))
        (λ h. Valued (pairs_view attributes.now))) }
{
    let names = names_of(alloc, attributes)?;
    if are_distinct(&names) && are_apart(attributes, heading) {
        Ok(())
    } else {
        Err(Fault::Refused(Cause::Heading))
    }
}

/// The attributes that are added or set, with the types of their expressions.
pub(crate) fn new_attributes<B: Body>(
    lent: &LentWorld<'_, B>,
    tuples: &[Tuple],
    operand: &Rel,
    parts: &[NamedExpr],
) -> Result<Vec<(Name, Ty)>, Fault>
    requires { IsLentWorld lent.now }
    ensures { Answers (λ ts. pairs_view ts.items) result
        (named_types (entered_with operand.now.heading
        (with_tuples (seen_by lent.now).scope (reverse tuples.now))) (named_view parts.now)) }
{
    let mut scope = lent.scope(tuples)?;
    scope.enter(operand.heading().try_clone()?)?;
    check_parts(&scope, parts)
}

/// The tuples of a relation with new attributes, by what is answered of their values: refused where
/// a name is there or comes twice.
pub fn extension_by(
    alloc: Global,
    rel: &Rel,
    attributes: &[(Name, Ty)],
    columns: Result<Vec<(Name, Column)>, Fault>,
) -> Result<Value, Fault>
    requires { IfOk columns (λ cs. AreColumnsFor (pairs_view attributes.now) rel.now.body
        (columns_view cs.items)) }
    ensures { (fs : List (Tuple → Outcome Val)) → length attributes.now ≡ length fs
        → Answers (λ cs. columns_view cs.items) columns
        (gathered (named_columns (pairs_view attributes.now) fs rel.now.body))
        → Answers (λ v. v) result
        (extended_value (Valued (pairs_view attributes.now)) fs rel.now) }
{
    ask_new(alloc, attributes, rel.heading())?;
    extension_value(alloc, rel, columns?)
}

/// The tuples of a relation with attributes set, by what is answered of their values: refused where
/// a name comes twice.
pub fn setting_by(
    alloc: Global,
    rel: &Rel,
    attributes: &[(Name, Ty)],
    columns: Result<Vec<(Name, Column)>, Fault>,
) -> Result<Value, Fault>
    requires { IfOk columns (λ cs. AreColumnsFor (pairs_view attributes.now) rel.now.body
        (columns_view cs.items)) }
    ensures { (fs : List (Tuple → Outcome Val)) → length attributes.now ≡ length fs
        → Answers (λ cs. columns_view cs.items) columns
        (gathered (named_columns (pairs_view attributes.now) fs rel.now.body))
        → Answers (λ v. v) result
        (extended_by_settings (Valued (pairs_view attributes.now)) fs rel.now) }
{
    let names = names_of(alloc, attributes)?;
    fit(are_distinct(&names))?;
    let columns = columns?;
    as_value(alloc, set_all(alloc, rel, &columns))
}
