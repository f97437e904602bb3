//! The values of SUMMARIZE, by what its items are of in the groups.
ghost use Rattle.std.specs.Prelude.{◌≡◌, List, length, map, reverse};
ghost use Rattle.td_algebra.specs.code.Columns.{columns_view};
ghost use Rattle.td_check.specs.model.OperatorTypes.{aggregate_type};
ghost use Rattle.td_check.specs.model.Scopes.{entered_with};
ghost use Rattle.td_eval.specs.model.AggregateValues.{Summand, summary_attributes, summary_in};
ghost use Rattle.td_eval.specs.model.OperatorValues.{extended_value};
ghost use Rattle.td_eval.specs.code.LentWorlds.{IsLentWorld, seen_by};
ghost use Rattle.td_eval.specs.code.Totals.{AreTotalsFor, asked_by, attribute_found, total_columns};
ghost use Rattle.td_eval.specs.code.Totals.{total_of};
ghost use Rattle.td_eval.specs.code.Totals.{total_values, total_view};
ghost use Rattle.td_eval.specs.model.TreeValues.{items_in_tuples};
ghost use Rattle.td_eval.specs.model.Worlds.{with_tuples};
ghost use Rattle.td_group.specs.model.Groups.{groups};
ghost use Rattle.td_tree.specs.model.Outcomes.{Answers, Outcome, Valued, gathered, value_if};
ghost use Rattle.td_tree.specs.model.Outcomes.{with_value};
ghost use Rattle.td_tree.specs.code.TreeViews.{summaries_view};
ghost use Rattle.td_tree.specs.declared.cause.Cause.TheVariants as causes;
ghost use Rattle.td_types.specs.model.Headings.{is_part};
ghost use Rattle.td_types.specs.code.Pairs.{pair_view};
ghost use Rattle.td_types.specs.code.Views.{pairs_view, type_view};
ghost use Rattle.td_value.specs.model.Values.{Relation, Val};

use crate::extension::ask_new;
use crate::lent_world::LentWorld;
use crate::operators::aggregates::{aggregate_of, asked_of};
use crate::operators::relational::fit;
use crate::operators::tuplewise::extension_value;
use crate::rows::{named_column, value_of_its_type};
use std::alloc::Global;
use td_algebra::extension::Column;
use td_body::body::Body;
use td_check::expression::check_expr;
use td_check::scope::Scope;
use td_group::aggregates::Agg;
use td_group::groups::groups;
use td_tree::cause::Cause;
use td_tree::expression::Summary;
use td_tree::fault::Fault;
use td_tree::gathering::Gathering;
use td_tree::name::Name;
use td_tree::operator::Aggregate;
use td_types::ty::Ty;
use td_value::relation::Rel;
use td_value::tuple::Tuple;
use td_value::value::Value;

/// Each tuple of PER with its group: refused where PER's heading is no part of the operand's.
pub fn groups_by_per(alloc: Global, rel: &Rel, per: &Rel) -> Result<Vec<(Tuple, Rel)>, Fault>
    ensures { Answers (λ gs. gs.items) result
        (value_if (is_part per.now.heading rel.now.heading) (groups rel.now per.now)
        causes.Heading) }
{
    fit(per.heading().is_part_of(rel.heading()))?;
    Ok(groups(alloc, rel, per)?)
}

// ---- the new attributes

/// The type of an aggregate, by the type of the values.
fn aggregate_type(op: Aggregate, ty: Ty) -> Result<Ty, Fault>
    ensures { Answers type_view result (aggregate_type op (type_view ty)) }
{
    match (op, &ty) {
        (_, Ty::Int) | (Aggregate::Max | Aggregate::Min, Ty::Text) => Ok(ty),
        _ => Err(Fault::Refused(Cause::TypeMismatch)),
    }
}

/// The attribute that an item adds, with its type.
fn item_attribute(scope: &Scope<'_>, item: &Summary) -> Result<(Name, Ty), Fault>
    ensures { Answers pair_view result (attribute_found scope.now item.now) }
{
    match item {
        Summary::Count(name) => Ok((name.try_clone()?, Ty::Int)),
        Summary::Of(op, value, name) => {
            let ty = aggregate_type(*op, check_expr(scope, value)?)?;
            Ok((name.try_clone()?, ty))
        }
    }
}

/// The attributes that items add, with their types.
pub fn item_attributes(
    alloc: Global,
    scope: &Scope<'_>,
    items: &[Summary],
) -> Result<Vec<(Name, Ty)>, Fault>
    ensures { Answers (λ xs. pairs_view xs.items) result
        (summary_attributes scope.now (summaries_view items.now)) }
{
    let mut causes = Gathering::new();
    let mut attributes = Vec::with_capacity(alloc, items.len())?;
    for item in items {
        causes.collect(&mut attributes, item_attribute(scope, item))?;
    }
    causes.finish(attributes)
}

/// The attributes that items add, with their types where tuples of a relation are in scope.
fn new_attributes<B: Body>(
    lent: &LentWorld<'_, B>,
    tuples: &[Tuple],
    rel: &Rel,
    items: &[Summary],
) -> Result<Vec<(Name, Ty)>, Fault>
    requires { IsLentWorld lent.now }
    ensures { Answers (λ xs. pairs_view xs.items) result
        (summary_attributes (entered_with rel.now.heading
        (with_tuples (seen_by lent.now).scope (reverse tuples.now))) (summaries_view items.now)) }
{
    let mut scope = lent.scope(tuples)?;
    scope.enter(rel.heading().try_clone()?)?;
    item_attributes(lent.alloc, &scope, items)
}

// ---- their values

/// The aggregate that an item of SUMMARIZE names: COUNT, or the operator of its expression.
pub fn asked_by(item: &Summary) -> Agg
    ensures { result ≡ asked_by item.now }
{
    match item {
        Summary::Count(_) => Agg::Count,
        Summary::Of(op, _, _) => asked_of(*op),
    }
}

/// An item's aggregate, with the values of its expression in the tuples of each group.
pub fn with_aggregate(
    item: &Summary,
    groups: Result<Vec<Vec<Value>>, Fault>,
) -> Result<(Agg, Vec<Vec<Value>>), Fault>
    ensures { (o : Outcome (List (List Val)))
        → Answers (λ vss. map (λ vs. vs.items) vss.items) groups o
        → Answers total_view result (with_value o (λ vss. Valued (asked_by item.now, vss))) }
{
    Ok((asked_by(item), groups?))
}

/// The values of a new attribute, which are of its type: what the aggregate gives of each group.
fn total_values(
    alloc: Global,
    ty: &Ty,
    asked: Agg,
    groups: &[Vec<Value>],
) -> Result<Vec<Value>, Fault>
    ensures { Answers (λ vs. vs.items) result
        (total_values (type_view ty.now) (asked, map (λ vs. vs.items) groups.now)) }
{
    let mut causes = Gathering::new();
    let mut values = Vec::with_capacity(alloc, groups.len())?;
    for group in groups {
        let value = value_of_its_type(ty, aggregate_of(asked, group));
        causes.collect(&mut values, value)?;
    }
    causes.finish(values)
}

/// The new attributes with their values.
fn total_columns(
    alloc: Global,
    attributes: &[(Name, Ty)],
    totals: &[(Agg, Vec<Vec<Value>>)],
) -> Result<Vec<(Name, Column)>, Fault>
    requires { length attributes.now ≡ length totals.now }
    ensures { Answers (λ cs. columns_view cs.items) result (gathered
        (total_columns (pairs_view attributes.now) (map total_view totals.now))) }
{
    let mut causes = Gathering::new();
    let mut columns = Vec::with_capacity(alloc, totals.len())?;
    for (place, total) in totals.iter().enumerate() {
        let (name, ty) = &attributes[place];
        let values = total_values(alloc, ty, total.0, &total.1);
        causes.collect(&mut columns, named_column(name, ty, values))?;
    }
    causes.finish(columns)
}

/// The tuples of PER with new attributes, by what their items are of in the groups: refused where a
/// name is there or comes twice.
pub fn summary_by(
    alloc: Global,
    per: &Rel,
    attributes: &[(Name, Ty)],
    totals: &[(Agg, Vec<Vec<Value>>)],
) -> Result<Value, Fault>
    requires lengths { length attributes.now ≡ length totals.now }
    requires totals { AreTotalsFor per.now (map total_view totals.now) }
    ensures { (rel : Relation) → (items : List Summand)
        → gathered (map (total_of (groups rel per.now)) items)
        ≡ Valued (map total_view totals.now)
        → Answers (λ v. v) result (extended_value (Valued (pairs_view attributes.now))
        (map (summary_in rel per.now) items) per.now) }
{
    ask_new(alloc, attributes, per.heading())?;
    let columns = total_columns(alloc, attributes, totals)?;
    extension_value(alloc, per, columns)
}

/// The tuples of PER with what the items give of their groups.
pub(crate) fn extended_per<B: Body>(
    lent: &LentWorld<'_, B>,
    tuples: &[Tuple],
    rel: &Rel,
    per: &Rel,
    items: &[Summary],
    totals: &[(Agg, Vec<Vec<Value>>)],
) -> Result<Value, Fault>
    requires lent { IsLentWorld lent.now }
    requires totals { gathered (map (total_of (groups rel.now per.now))
        (items_in_tuples (seen_by lent.now) (reverse tuples.now) (summaries_view items.now)))
        ≡ Valued (map total_view totals.now) }
    ensures { Answers (λ v. v) result (extended_value
        (summary_attributes (entered_with rel.now.heading
        (with_tuples (seen_by lent.now).scope (reverse tuples.now))) (summaries_view items.now))
        (map (summary_in rel.now per.now)
        (items_in_tuples (seen_by lent.now) (reverse tuples.now) (summaries_view items.now)))
        per.now) }
{
    let attributes = new_attributes(lent, tuples, rel, items)?;
    summary_by(lent.alloc, per, &attributes, totals)
}
