//! Constraints that may be tested by the tuples that came into a base relvar: they ask of each of
//! its tuples, beside expressions that name nothing which the change reaches.
ghost use Rattle.std.specs.Prelude.{◌≡◌, false, true};
ghost use Rattle.td_catalog.specs.laws.NamedRelvars.{names_any};
ghost use Rattle.td_engine.specs.laws.Additions.{AsksOfTuples, GivesOfFirst, GivesOfSecond};
ghost use Rattle.td_engine.specs.laws.Additions.{IsImageBeside, IsImageOf, NameNone};
ghost use Rattle.td_tree.specs.code.TreeViews.{named_view, tree_view};

use std::alloc::Global;
use td_catalog::marked_names::MarkedNames;
use td_check::names::names_in;
use td_tree::expression::{Expr, NamedExpr, Postfix};
use td_tree::name::Name;
use td_tree::operator::{Comparison, Measure, Operator};
use td_value::relation::Rel;

/// The one base relvar that a statement changed, and the tuples that came into it.
#[derive(Clone, Copy, Drop)]
pub(crate) struct Added<'a> {
    pub(crate) relvar: &'a Name,
    pub(crate) tuples: &'a Rel,
}

/// Whether one of those reached may be named in the expression: it may where there is no memory to
/// tell.
fn may_name(alloc: Global, expr: &Expr, reached: &MarkedNames) -> bool
    ensures { result ≡ false → names_any reached.now (tree_view expr.now) ≡ false }
{
    match names_in(alloc, expr) {
        Ok(names) => MarkedNames::new(names).have_common(reached),
        Err(_) => true,
    }
}

/// Whether none of the expressions names one of those reached.
fn name_none(alloc: Global, parts: &[NamedExpr], reached: &MarkedNames) -> bool
    ensures { result ≡ true → NameNone reached.now (named_view parts.now) }
{
    for part in parts {
        if may_name(alloc, &part.value, reached) {
            return false;
        }
    }
    true
}

/// Whether the operator gives of the tuples of its first operand what it gives of each of them,
/// beside a second that names none of those reached.
fn gives_of_first(alloc: Global, operator: Operator, other: &Expr, reached: &MarkedNames) -> bool
    ensures operator { result ≡ true → GivesOfFirst operator }
    ensures other { result ≡ true → names_any reached.now (tree_view other.now) ≡ false }
{
    match operator {
        Operator::Intersect => !may_name(alloc, other, reached),
        Operator::Minus => !may_name(alloc, other, reached),
        Operator::Join => !may_name(alloc, other, reached),
        Operator::Matching => !may_name(alloc, other, reached),
        Operator::NotMatching => !may_name(alloc, other, reached),
        _ => false,
    }
}

/// Whether it does so of those of its second operand, beside such a first.
fn gives_of_second(alloc: Global, operator: Operator, other: &Expr, reached: &MarkedNames) -> bool
    ensures operator { result ≡ true → GivesOfSecond operator }
    ensures other { result ≡ true → names_any reached.now (tree_view other.now) ≡ false }
{
    match operator {
        Operator::Intersect => !may_name(alloc, other, reached),
        Operator::Join => !may_name(alloc, other, reached),
        _ => false,
    }
}

/// Whether the expression is the relvar, or what operators make of each of its tuples.
fn is_image(alloc: Global, expr: &Expr, relvar: &Name, reached: &MarkedNames) -> bool
    ensures { result ≡ true → IsImageOf relvar.now reached.now (tree_view expr.now) }
{
    match expr {
        Expr::Name(own) => *own == *relvar,
        Expr::Parentheses(inner) => is_image(alloc, inner, relvar, reached),
        Expr::Postfix(operand, Postfix::Project(_)) => is_image(alloc, operand, relvar, reached),
        Expr::Postfix(operand, Postfix::Rename(_, _)) => is_image(alloc, operand, relvar, reached),
        Expr::Restriction(operand, condition) => {
            if may_name(alloc, condition, reached) {
                return false;
            }
            is_image(alloc, operand, relvar, reached)
        }
        Expr::Extend(operand, parts) | Expr::ExtendSetting(operand, parts) => {
            if name_none(alloc, parts, reached) {
                return is_image(alloc, operand, relvar, reached);
            }
            false
        }
        Expr::Binary(left, operator, right) => {
            if gives_of_first(alloc, *operator, right, reached) {
                if is_image(alloc, left, relvar, reached) {
                    return true;
                }
            }
            if !gives_of_second(alloc, *operator, left, reached) {
                return false;
            }
            is_image(alloc, right, relvar, reached)
        }
        _ => false,
    }
}

/// Whether the first is such an image of the relvar, and the second names none of those reached.
fn is_image_beside(
    alloc: Global,
    image: &Expr,
    other: &Expr,
    relvar: &Name,
    reached: &MarkedNames,
) -> bool
    ensures { result ≡ true
        → IsImageBeside relvar.now reached.now (tree_view image.now) (tree_view other.now) }
{
    if !is_image(alloc, image, relvar, reached) {
        return false;
    }
    !may_name(alloc, other, reached)
}

/// Whether the expression asks of each tuple of the relvar.
pub(crate) fn asks_of_tuples(
    alloc: Global,
    expr: &Expr,
    relvar: &Name,
    reached: &MarkedNames,
) -> bool
    ensures { result ≡ true → AsksOfTuples relvar.now reached.now (tree_view expr.now) }
{
    match expr {
        Expr::Parentheses(inner) => asks_of_tuples(alloc, inner, relvar, reached),
        Expr::Measure(Measure::IsEmpty, operand) => is_image(alloc, operand, relvar, reached),
        Expr::Compare(left, Comparison::LessOrEqual, right) => {
            is_image_beside(alloc, left, right, relvar, reached)
        }
        Expr::Compare(left, Comparison::GreaterOrEqual, right) => {
            is_image_beside(alloc, right, left, relvar, reached)
        }
        Expr::Binary(left, Operator::And, right) => {
            if may_name(alloc, left, reached) {
                if !asks_of_tuples(alloc, left, relvar, reached) {
                    return false;
                }
            }
            if may_name(alloc, right, reached) {
                return asks_of_tuples(alloc, right, relvar, reached);
            }
            true
        }
        _ => false,
    }
}
