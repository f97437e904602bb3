//! The value of an expression.
ghost use Rattle.std.specs.Prelude.{◌≡◌, ◌∷◌, ◌<◌, IsTrue, Some, length, map, reverse, take};
ghost use Rattle.std.specs.List.{slice_get};
ghost use Rattle.td_algebra.specs.code.Columns.{columns_view};
ghost use Rattle.td_check.specs.model.Scopes.{Scope, entered_with};
ghost use Rattle.td_check.specs.model.StaticTypes.{named_types};
ghost use Rattle.td_eval.specs.model.AggregateValues.{aggregated_value, asked_of};
ghost use Rattle.td_eval.specs.model.DatabaseWorlds.{constraint_value, world_of_types};
ghost use Rattle.td_eval.specs.code.NewColumns.{named_columns};
ghost use Rattle.td_eval.specs.model.OperatorValues.{column_values, extended_by_settings};
ghost use Rattle.td_eval.specs.model.OperatorValues.{extended_value, on_relation, restricted_value};
ghost use Rattle.td_eval.specs.model.OperatorValues.{truth_value};
ghost use Rattle.td_eval.specs.code.LentWorlds.{IsLentWorld, seen_by, tuples_in_hand, world_in};
ghost use Rattle.td_eval.specs.model.TreeValues.{argument_values, entry_values};
ghost use Rattle.td_eval.specs.model.TreeValues.{value_of, values_in_tuples};
ghost use Rattle.td_eval.specs.laws.ValueLaws.{IsChecked};
ghost use Rattle.td_eval.specs.laws.ValueTypes.{AnswersType, KeepsScope};
ghost use Rattle.td_eval.specs.model.Worlds.{known_outcome, name_value, selector_outcome};
ghost use Rattle.td_eval.specs.model.Worlds.{with_tuples};
ghost use Rattle.td_tree.specs.model.Outcomes.{Answers, gathered};
ghost use Rattle.td_tree.specs.code.TreeViews.{named_view, tree_view, trees_view};
ghost use Rattle.td_tree.specs.model.Trees.{choice};
ghost use Rattle.td_types.specs.code.Views.{pairs_view, type_view};

mod bound;
mod elements;
mod summaries;

use crate::env::Env;
use crate::extension::{extension_by, new_attributes, setting_by};
use crate::lent_world::LentWorld;
use crate::operators::aggregates::value_of_aggregate;
use crate::operators::between::value_of_operator;
use crate::operators::comparisons::value_of_comparison;
use crate::operators::elements::tuple_from;
use crate::operators::literals::literal_value;
use crate::operators::operand::{component_value, extracted_value, measure_value, prefix_value};
use crate::operators::postfix::{postfix_value, projected_by};
use crate::operators::requirements::{attribute, have_types, relation_in, truth};
use crate::operators::selectors::{component_tuple, user_value};
use crate::operators::tuplewise::restriction_value;
use crate::rows::{
    copies_of, copies_of_lent, named_column, named_value, truth_of, value_of_its_type,
};
use crate::value::bound::bound;
use crate::value::elements::{headed_elements, listed_elements};
use crate::value::summaries::summary;
use std::alloc::Global;
use td_algebra::extension::Column;
use td_body::body::Body;
use td_tree::cause::Cause;
use td_tree::expression::{Expr, NamedExpr};
use td_tree::fault::Fault;
use td_tree::gathering::{Gathering, both};
use td_tree::name::Name;
use td_tree::operator::{Aggregate, Operator};
use td_types::table::TypeEntry;
use td_types::ty::Ty;
use td_value::relation::Rel;
use td_value::tuple::Tuple;
use td_value::value::Value;

/// The value of the relvar of a name. A virtual relvar's is that of its expression where the
/// virtual relvars before it alone are known and no tuple is in scope.
#[cycle(value)]
pub(crate) fn relvar_value<B: Body>(lent: &LentWorld<'_, B>, name: &Name) -> Result<Value, Fault>
    requires { IsLentWorld lent.now }
    ensures { Answers (λ v. v) result (known_outcome ((seen_by lent.now).relvar name.now)) }
{
    if let Some(rel) = lent.relation(name)? {
        return Ok(Value::relation(lent.alloc, rel)?);
    }
    match lent.virtual_relvar(name) {
        Some((place, tree)) => value_of(&lent.in_virtual(place), &[], tree),
        None => Err(Fault::Refused(Cause::NameUnknown)),
    }
}

/// The value of the innermost attribute of a name, else of the relvar. The innermost tuple is the
/// last.
#[cycle(value)]
fn name_value<B: Body>(
    lent: &LentWorld<'_, B>,
    tuples: &[Tuple],
    name: &Name,
) -> Result<Value, Fault>
    requires { IsLentWorld lent.now }
    ensures { Answers (λ v. v) result
        (name_value (seen_by lent.now) (reverse tuples.now) name.now) }
{
    match attribute(tuples, name) {
        Some(value) => Ok(value.try_clone()?),
        None => relvar_value(lent, name),
    }
}

/// The value of an expression where these tuples are in scope. The innermost is the last.
#[cycle(value)]
fn value_of<B: Body>(lent: &LentWorld<'_, B>, tuples: &[Tuple], expr: &Expr) -> Result<Value, Fault>
    requires { IsLentWorld lent.now }
    ensures { Answers (λ v. v) result
        (value_of (seen_by lent.now) (reverse tuples.now) (tree_view expr.now)) }
{
    let alloc = lent.alloc;
    match expr {
        Expr::Literal(literal) => literal_value(alloc, literal),
        Expr::Name(name) => name_value(lent, tuples, name),
        Expr::Parentheses(inner) => value_of(lent, tuples, inner),
        Expr::Prefix(op, operand) => prefix_value(alloc, *op, &value_of(lent, tuples, operand)?),
        Expr::Extract(name, operand) => extracted_value(name, &value_of(lent, tuples, operand)?),
        Expr::Restriction(operand, condition) => {
            restriction(lent, tuples, &value_of(lent, tuples, operand)?, condition)
        }
        Expr::Binary(left, op, right) => {
            let first = value_of(lent, tuples, left);
            value_of_operator(alloc, *op, first, value_of(lent, tuples, right))
        }
        Expr::Compare(left, op, right) => {
            let first = value_of(lent, tuples, left);
            value_of_comparison(alloc, *op, first, value_of(lent, tuples, right))
        }
        Expr::Postfix(operand, op) => postfix_value(alloc, op, &value_of(lent, tuples, operand)?),
        Expr::Select(ty, arguments) => selector_outcome(
            lent,
            ty,
            values_of(lent, tuples, arguments)?,
        ),
        Expr::Component(name, operand) => {
            component_value(lent.types, name, &value_of(lent, tuples, operand)?)
        }
        Expr::Measure(op, operand) => measure_value(*op, &value_of(lent, tuples, operand)?),
        Expr::Relation(elements) => listed_elements(lent, tuples, elements),
        Expr::HeadedRelation(heading, elements) => {
            headed_elements(lent, tuples, heading, elements)
        }
        Expr::Tuple(parts) => tuple_from(alloc, entries(lent, tuples, parts)?),
        Expr::Extend(operand, parts) => {
            extension(lent, tuples, &value_of(lent, tuples, operand)?, parts)
        }
        Expr::ExtendSetting(operand, settings) => {
            setting(lent, tuples, &value_of(lent, tuples, operand)?, settings)
        }
        Expr::If(condition, first, second) => choice(lent, tuples, condition, first, second),
        Expr::Aggregate(op, operand, value) => {
            aggregation(lent, tuples, &value_of(lent, tuples, operand)?, *op, value)
        }
        Expr::SummarizePer(operand, per, items) => {
            let operand = value_of(lent, tuples, operand);
            let (operand, per) = both(operand, value_of(lent, tuples, per))?;
            summary(lent, tuples, &operand, &per, items)
        }
        Expr::SummarizeBy(operand, by, items) => {
            let operand = value_of(lent, tuples, operand)?;
            summary(
                lent,
                tuples,
                &operand,
                &projected_by(alloc, &operand, by)?,
                items,
            )
        }
        Expr::With(items, inner) => bound(lent, tuples, items, inner),
    }
}

/// The value of the one of two expressions that a condition chooses.
#[cycle(value)]
fn choice<B: Body>(
    lent: &LentWorld<'_, B>,
    tuples: &[Tuple],
    condition: &Expr,
    consequent: &Expr,
    alternative: &Expr,
) -> Result<Value, Fault>
    requires { IsLentWorld lent.now }
    ensures { Answers (λ v. v) result (value_of (seen_by lent.now) (reverse tuples.now)
        (choice (tree_view condition.now) (tree_view consequent.now)
        (tree_view alternative.now))) }
{
    if truth(&value_of(lent, tuples, condition)?)? {
        value_of(lent, tuples, consequent)
    } else {
        value_of(lent, tuples, alternative)
    }
}

/// The values of expressions, in the order written.
#[cycle(value)]
pub(crate) fn values_of<B: Body>(
    lent: &LentWorld<'_, B>,
    tuples: &[Tuple],
    exprs: &[Expr],
) -> Result<Vec<Value>, Fault>
    requires { IsLentWorld lent.now }
    ensures { Answers (λ vs. vs.items) result
        (argument_values (seen_by lent.now) (reverse tuples.now) (trees_view exprs.now)) }
{
    let mut causes = Gathering::new();
    let mut values = Vec::with_capacity(lent.alloc, exprs.len())?;
    for expr in exprs {
        causes.collect(&mut values, value_of(lent, tuples, expr))?;
    }
    causes.finish(values)
}

/// Names with the values of their expressions.
#[cycle(value)]
fn entries<B: Body>(
    lent: &LentWorld<'_, B>,
    tuples: &[Tuple],
    parts: &[NamedExpr],
) -> Result<Vec<(Name, Value)>, Fault>
    requires { IsLentWorld lent.now }
    ensures { Answers (λ es. es.items) result
        (entry_values (seen_by lent.now) (reverse tuples.now) (named_view parts.now)) }
{
    let mut causes = Gathering::new();
    let mut entries = Vec::with_capacity(lent.alloc, parts.len())?;
    for part in parts {
        let entry = named_value(&part.name, value_of(lent, tuples, &part.value));
        causes.collect(&mut entries, entry)?;
    }
    causes.finish(entries)
}

/// What the selector of the name gives of components.
#[cycle(value)]
pub(crate) fn selector_outcome<B: Body>(
    lent: &LentWorld<'_, B>,
    name: &Name,
    values: Vec<Value>,
) -> Result<Value, Fault>
    requires { IsLentWorld lent.now }
    ensures { Answers (λ v. v) result (selector_outcome (seen_by lent.now) name.now values.items) }
{
    let Some(place) = lent.selector(name) else {
        return Err(Fault::Refused(Cause::NameUnknown));
    };
    let Some(entry) = lent.types.get(name) else {
        return Err(Fault::Refused(Cause::NameUnknown));
    };
    if !have_types(&values, entry.components()) {
        return Err(Fault::Refused(Cause::TypeMismatch));
    }
    let holds = meets_constraint(lent, place, entry, &values);
    user_value(lent.alloc, name, values, holds)
}

/// Whether components meet the constraint of the type at a place, which sees them alone and the
/// selectors of the types before it.
#[cycle(value)]
fn meets_constraint<B: Body>(
    lent: &LentWorld<'_, B>,
    place: usize,
    entry: &TypeEntry,
    values: &[Value],
) -> Result<bool, Fault>
    requires lent { IsLentWorld lent.now }
    requires place { place < lent.now.selectors }
    requires entry { slice_get lent.now.types.now place ≡ Some entry.now }
    ensures { Answers (λ b. b) result (constraint_value
        (world_of_types lent.now.types.now (take place lent.now.types.now))
        entry.now values.now) }
{
    let Some(constraint) = entry.constraint() else {
        return Ok(true);
    };
    let components = component_tuple(lent.alloc, entry.components(), values)?;
    truth_of(value_of(&lent.in_constraint(place), &[components], constraint))
}

/// The value of an expression where one tuple more is in scope.
#[cycle(value)]
fn value_in_row<B: Body>(
    lent: &LentWorld<'_, B>,
    tuples: &mut Vec<Tuple>,
    row: &Tuple,
    expr: &Expr,
) -> Result<Value, Fault>
    requires { IsLentWorld lent.now }
    ensures value { Answers (λ v. v) result (value_of (seen_by lent.now)
        (row.now ∷ reverse tuples.old.items) (tree_view expr.now)) }
    ensures tuples { tuples.new.items ≡ tuples.old.items }
{
    tuples.push(row.try_clone()?)?;
    let value = value_of(lent, tuples, expr);
    let _ = tuples.pop();
    value
}

/// The truth values of a condition in the tuples of a relation.
#[cycle(value)]
pub(crate) fn truths<B: Body>(
    lent: &LentWorld<'_, B>,
    tuples: &[Tuple],
    operand: &Rel,
    condition: &Expr,
) -> Result<Vec<bool>, Fault>
    requires { IsLentWorld lent.now }
    ensures { Answers (λ m. m.items) result (gathered (map (λ t. truth_value
        (value_of (seen_by lent.now) (t ∷ reverse tuples.now) (tree_view condition.now)))
        operand.now.body)) }
{
    let mut causes = Gathering::new();
    let mut inner = copies_of(lent.alloc, tuples)?;
    let rows = operand.rows();
    let mut truths = Vec::with_capacity(lent.alloc, rows.len())?;
    for row in rows {
        let truth = truth_of(value_in_row(lent, &mut inner, row, condition));
        causes.collect(&mut truths, truth)?;
    }
    causes.finish(truths)
}

/// The tuples of an operand for which a condition is TRUE.
#[cycle(value)]
fn restriction<B: Body>(
    lent: &LentWorld<'_, B>,
    tuples: &[Tuple],
    operand: &Value,
    condition: &Expr,
) -> Result<Value, Fault>
    requires { IsLentWorld lent.now }
    ensures { Answers (λ v. v) result (on_relation operand.now (restricted_value (λ t.
        value_of (seen_by lent.now) (t ∷ reverse tuples.now) (tree_view condition.now)))) }
{
    let rel = relation_in(operand)?;
    restriction_value(lent.alloc, rel, truths(lent, tuples, rel, condition))
}

/// The values of an expression in the tuples of a relation, which are of a type.
#[cycle(value)]
fn column<B: Body>(
    lent: &LentWorld<'_, B>,
    tuples: &[Tuple],
    operand: &Rel,
    ty: &Ty,
    expr: &Expr,
) -> Result<Vec<Value>, Fault>
    requires { IsLentWorld lent.now }
    ensures { Answers (λ vs. vs.items) result (column_values (type_view ty.now)
        (λ t. value_of (seen_by lent.now) (t ∷ reverse tuples.now) (tree_view expr.now))
        operand.now.body) }
{
    let mut causes = Gathering::new();
    let mut inner = copies_of(lent.alloc, tuples)?;
    let rows = operand.rows();
    let mut values = Vec::with_capacity(lent.alloc, rows.len())?;
    for row in rows {
        let value = value_of_its_type(ty, value_in_row(lent, &mut inner, row, expr));
        causes.collect(&mut values, value)?;
    }
    causes.finish(values)
}

/// The new attributes with their values in the tuples of a relation.
#[cycle(value)]
pub(crate) fn columns<B: Body>(
    lent: &LentWorld<'_, B>,
    tuples: &[Tuple],
    operand: &Rel,
    attributes: &[(Name, Ty)],
    parts: &[NamedExpr],
) -> Result<Vec<(Name, Column)>, Fault>
    requires lent { IsLentWorld lent.now }
    requires lengths { length attributes.now ≡ length parts.now }
    ensures { Answers (λ cs. columns_view cs.items) result
        (gathered (named_columns (pairs_view attributes.now)
        (values_in_tuples (seen_by lent.now) (reverse tuples.now) (named_view parts.now))
        operand.now.body)) }
{
    let mut causes = Gathering::new();
    let mut columns = Vec::with_capacity(lent.alloc, parts.len())?;
    for (place, part) in parts.iter().enumerate() {
        let (name, ty) = &attributes[place];
        let values = column(lent, tuples, operand, ty, &part.value);
        causes.collect(&mut columns, named_column(name, ty, values))?;
    }
    causes.finish(columns)
}

/// The tuples of an operand with new attributes.
#[cycle(value)]
fn extension<B: Body>(
    lent: &LentWorld<'_, B>,
    tuples: &[Tuple],
    operand: &Value,
    parts: &[NamedExpr],
) -> Result<Value, Fault>
    requires { IsLentWorld lent.now }
    ensures { Answers (λ v. v) result (on_relation operand.now (λ r. extended_value
        (named_types (entered_with r.heading
        (with_tuples (seen_by lent.now).scope (reverse tuples.now))) (named_view parts.now))
        (values_in_tuples (seen_by lent.now) (reverse tuples.now) (named_view parts.now)) r)) }
{
    let rel = relation_in(operand)?;
    let attributes = new_attributes(lent, tuples, rel, parts)?;
    let columns = columns(lent, tuples, rel, &attributes, parts);
    extension_by(lent.alloc, rel, &attributes, columns)
}

/// The tuples of an operand with attributes set.
#[cycle(value)]
fn setting<B: Body>(
    lent: &LentWorld<'_, B>,
    tuples: &[Tuple],
    operand: &Value,
    settings: &[NamedExpr],
) -> Result<Value, Fault>
    requires { IsLentWorld lent.now }
    ensures { Answers (λ v. v) result (on_relation operand.now (λ r. extended_by_settings
        (named_types (entered_with r.heading
        (with_tuples (seen_by lent.now).scope (reverse tuples.now))) (named_view settings.now))
        (values_in_tuples (seen_by lent.now) (reverse tuples.now) (named_view settings.now))
        r)) }
{
    let rel = relation_in(operand)?;
    let attributes = new_attributes(lent, tuples, rel, settings)?;
    let columns = columns(lent, tuples, rel, &attributes, settings);
    setting_by(lent.alloc, rel, &attributes, columns)
}

/// The values of an expression in the tuples of a relation.
#[cycle(value)]
pub(crate) fn values_in_rows<B: Body>(
    lent: &LentWorld<'_, B>,
    tuples: &[Tuple],
    operand: &Rel,
    expr: &Expr,
) -> Result<Vec<Value>, Fault>
    requires { IsLentWorld lent.now }
    ensures { Answers (λ vs. vs.items) result (gathered (map (λ t.
        value_of (seen_by lent.now) (t ∷ reverse tuples.now) (tree_view expr.now))
        operand.now.body)) }
{
    let mut causes = Gathering::new();
    let mut inner = copies_of(lent.alloc, tuples)?;
    let rows = operand.rows();
    let mut values = Vec::with_capacity(lent.alloc, rows.len())?;
    for row in rows {
        let value = value_in_row(lent, &mut inner, row, expr);
        causes.collect(&mut values, value)?;
    }
    causes.finish(values)
}

/// An aggregate of an expression over the tuples of an operand.
#[cycle(value)]
fn aggregation<B: Body>(
    lent: &LentWorld<'_, B>,
    tuples: &[Tuple],
    operand: &Value,
    op: Aggregate,
    expr: &Expr,
) -> Result<Value, Fault>
    requires { IsLentWorld lent.now }
    ensures { Answers (λ v. v) result (on_relation operand.now
        (aggregated_value (asked_of op) (λ t.
        value_of (seen_by lent.now) (t ∷ reverse tuples.now) (tree_view expr.now)))) }
{
    let rel = relation_in(operand)?;
    value_of_aggregate(op, values_in_rows(lent, tuples, rel, expr))
}

/// The value of the expression in what it is evaluated in, or the least of the causes for which it
/// has none. Of an expression that the checker gave a type the value is of that type, and the
/// causes are from OVERFLOW to NOT_INCLUDED.
pub fn eval<B: Body>(alloc: Global, env: &Env<'_, B>, expr: &Expr) -> Result<Value, Fault>
    ensures value { Answers (λ v. v) result
        (value_of (world_in env.now) (tuples_in_hand env.now) (tree_view expr.now)) }
    ensures typed { (scope : Scope) → KeepsScope (world_in env.now) scope
        → (is : IsChecked scope (tuples_in_hand env.now) (tree_view expr.now))
        → AnswersType scope.types is.typed.0 result }
{
    let lent = LentWorld::of_env(alloc, env);
    value_of(&lent, &copies_of_lent(alloc, env.tuples)?, expr)
}
