//! Whether an expression cannot fail.
ghost use Rattle.std.specs.Prelude.{◌≡◌};
ghost use Rattle.td_check.specs.laws.CannotFail.{all_unfailing, cannot_fail_of};
ghost use Rattle.td_check.specs.laws.CannotFail.{items_cannot_fail, measure_cannot_fail};
ghost use Rattle.td_check.specs.laws.CannotFail.{unfailing};
ghost use Rattle.td_check.specs.laws.CannotFail.{operator_cannot_fail, parts_unfailing};
ghost use Rattle.td_check.specs.laws.CannotFail.{prefix_cannot_fail, relvar_cannot_fail};
ghost use Rattle.td_check.specs.laws.CannotFail.{relvars_cannot_fail, selector_cannot_fail};
ghost use Rattle.td_tree.specs.model.Outcomes.{Answers};
ghost use Rattle.td_tree.specs.code.TreeViews.{named_view, summaries_view, tree_view, trees_view};

use crate::expression::names_seen;
use crate::mentioned::Mentions;
use crate::scope::{Kind, Scope};
use td_tree::expression::{Expr, NamedExpr, Summary};
use td_tree::fault::Fault;
use td_tree::name::Name;
use td_tree::operator::{Measure, Operator, Prefix};
use td_types::table::TypeTable;

/// Whether the operator has a value for any operands.
fn operator_cannot_fail(op: Operator) -> bool
    ensures { result ≡ operator_cannot_fail op }
{
    match op {
        Operator::Or
        | Operator::And
        | Operator::Union
        | Operator::Intersect
        | Operator::Minus
        | Operator::Join
        | Operator::Times
        | Operator::Compose
        | Operator::Matching
        | Operator::NotMatching
        | Operator::Concatenate => true,
        Operator::DisjointUnion
        | Operator::IncludedMinus
        | Operator::Add
        | Operator::Subtract
        | Operator::Multiply
        | Operator::Divide => false,
    }
}

/// Whether the operator has a value for any operand.
fn prefix_cannot_fail(op: Prefix) -> bool
    ensures { result ≡ prefix_cannot_fail op }
{
    !matches!(op, Prefix::Negate | Prefix::TupleFrom)
}

/// Whether COUNT or IS_EMPTY has a value for every relation: COUNT may be out of range.
fn measure_cannot_fail(op: Measure) -> bool
    ensures { result ≡ measure_cannot_fail op }
{
    !matches!(op, Measure::Count)
}

/// Whether the selector of the type has a value for any arguments: no constraint refuses some.
fn selector_cannot_fail(types: &TypeTable, ty: &Name) -> bool
    ensures { result ≡ selector_cannot_fail types.now ty.now }
{
    match types.get(ty) {
        Some(entry) => entry.constraint().is_none(),
        None => true,
    }
}

/// Whether `SUMMARIZE` adds nothing that may fail: each count and each aggregate may.
fn items_cannot_fail(items: &[Summary]) -> bool
    ensures { result ≡ items_cannot_fail (summaries_view items.now) }
{
    items.is_empty()
}

/// Whether none of the nodes may fail, where no name is a virtual relvar.
#[cycle(unfailing)]
fn unfailing(types: &TypeTable, expr: &Expr) -> bool
    ensures { result ≡ unfailing types.now (tree_view expr.now) }
{
    match expr {
        Expr::Literal(_) | Expr::Name(_) => true,
        Expr::Parentheses(operand)
        | Expr::Extract(_, operand)
        | Expr::Postfix(operand, _)
        | Expr::Component(_, operand) => unfailing(types, operand),
        Expr::Prefix(op, operand) => prefix_cannot_fail(*op) && unfailing(types, operand),
        Expr::Restriction(first, second) | Expr::Compare(first, _, second) => {
            unfailing(types, first) && unfailing(types, second)
        }
        Expr::Binary(left, op, right) => {
            operator_cannot_fail(*op) && unfailing(types, left) && unfailing(types, right)
        }
        Expr::Select(ty, exprs) => selector_cannot_fail(types, ty) && all_unfailing(types, exprs),
        Expr::Measure(op, operand) => measure_cannot_fail(*op) && unfailing(types, operand),
        Expr::Aggregate(..) => false,
        Expr::Relation(exprs) | Expr::HeadedRelation(_, exprs) => all_unfailing(types, exprs),
        Expr::Tuple(parts) => parts_unfailing(types, parts),
        Expr::Extend(operand, parts) | Expr::ExtendSetting(operand, parts) => {
            unfailing(types, operand) && parts_unfailing(types, parts)
        }
        Expr::SummarizePer(operand, per, items) => {
            items_cannot_fail(items) && unfailing(types, operand) && unfailing(types, per)
        }
        Expr::SummarizeBy(operand, _, items) => {
            items_cannot_fail(items) && unfailing(types, operand)
        }
        Expr::If(condition, first, second) => {
            unfailing(types, condition) && unfailing(types, first) && unfailing(types, second)
        }
        Expr::With(items, result) => parts_unfailing(types, items) && unfailing(types, result),
    }
}

/// Whether that holds of each expression.
#[cycle(unfailing)]
fn all_unfailing(types: &TypeTable, exprs: &[Expr]) -> bool
    ensures { result ≡ all_unfailing types.now (trees_view exprs.now) }
{
    for expr in exprs {
        if !unfailing(types, expr) {
            return false;
        }
    }
    true
}

/// Whether that holds of each named expression.
#[cycle(unfailing)]
fn parts_unfailing(types: &TypeTable, parts: &[NamedExpr]) -> bool
    ensures { result ≡ parts_unfailing types.now (named_view parts.now) }
{
    for part in parts {
        if !unfailing(types, &part.value) {
            return false;
        }
    }
    true
}

/// Whether no virtual relvar has the name.
fn relvar_cannot_fail(scope: &Scope<'_>, name: &Name) -> bool
    ensures { result ≡ relvar_cannot_fail scope.now.relvars name.now }
{
    match scope.relvar(name) {
        Some((Kind::Virtual, _)) => false,
        _ => true,
    }
}

/// Whether none of the relvars that are mentioned is virtual.
fn relvars_cannot_fail(scope: &Scope<'_>, seen: &Mentions) -> bool
    ensures { result ≡ relvars_cannot_fail scope.now.relvars seen.now.relvars.items }
{
    seen.relvars
        .iter()
        .all(|name| relvar_cannot_fail(scope, name))
}

/// Whether the expression cannot fail: none of its nodes is arithmetic, `D_UNION`, `I_MINUS`, an
/// aggregate, `TUPLE FROM`, a virtual relvar or the selector of a type with a constraint. A
/// literal's minus is a part of it. An expression without a type is refused as `check_expr`
/// refuses it.
pub fn cannot_fail(scope: &Scope<'_>, expr: &Expr) -> Result<bool, Fault>
    ensures { Answers (λ b. b) result (cannot_fail_of scope.now (tree_view expr.now)) }
{
    let seen = names_seen(scope, expr)?;
    Ok(unfailing(scope.types(), expr) && relvars_cannot_fail(scope, &seen))
}
