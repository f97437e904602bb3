//! Whether the numbers in an expression are in INTEGER's range, as they are in what is read. One that
//! asks for an aggregate may fail whatever they are, and is not looked into.
ghost use Rattle.std.specs.Prelude.{IsTrue};
ghost use Rattle.td_eval.specs.laws.TreeNumbers.{HasNumbers, HaveNumbers, IsInRangeLiteral};
ghost use Rattle.td_eval.specs.laws.TreeNumbers.{PartsHaveNumbers};
ghost use Rattle.td_tree.specs.code.TreeViews.{literal_view, named_view, tree_view, trees_view};

use td_tree::expression::{Expr, Literal, MAX_MAGNITUDE, NamedExpr};

/// Whether a literal's number is in range.
fn is_in_range(literal: &Literal) -> bool
    ensures { IsTrue result → IsInRangeLiteral (literal_view literal.now) }
{
    match literal {
        Literal::Number {
            minus: true,
            magnitude,
        } => *magnitude <= MAX_MAGNITUDE,
        Literal::Number {
            minus: false,
            magnitude,
        } => *magnitude < MAX_MAGNITUDE,
        Literal::Text(_) | Literal::Truth(_) | Literal::TableDee | Literal::TableDum => true,
    }
}

/// Whether an expression asks for no aggregate, and the numbers in it are in INTEGER's range.
#[cycle(numbers)]
pub(crate) fn has_numbers(expr: &Expr) -> bool
    ensures { IsTrue result → HasNumbers (tree_view expr.now) }
{
    match expr {
        Expr::Literal(literal) => is_in_range(literal),
        Expr::Name(_) => true,
        Expr::Parentheses(operand)
        | Expr::Prefix(_, operand)
        | Expr::Extract(_, operand)
        | Expr::Postfix(operand, _)
        | Expr::Component(_, operand)
        | Expr::Measure(_, operand) => has_numbers(operand),
        Expr::Restriction(first, second)
        | Expr::Binary(first, _, second)
        | Expr::Compare(first, _, second) => has_numbers(first) && has_numbers(second),
        Expr::Aggregate(..) => false,
        Expr::Select(_, arguments) => have_numbers(arguments),
        Expr::Relation(elements) => have_numbers(elements),
        Expr::HeadedRelation(_, elements) => have_numbers(elements),
        Expr::Tuple(parts) => parts_have_numbers(parts),
        Expr::Extend(operand, parts) | Expr::ExtendSetting(operand, parts) => {
            has_numbers(operand) && parts_have_numbers(parts)
        }
        Expr::SummarizePer(operand, per, items) => {
            has_numbers(operand) && has_numbers(per) && items.is_empty()
        }
        Expr::SummarizeBy(operand, _, items) => has_numbers(operand) && items.is_empty(),
        Expr::If(condition, consequent, alternative) => {
            has_numbers(condition) && has_numbers(consequent) && has_numbers(alternative)
        }
        Expr::With(items, value) => parts_have_numbers(items) && has_numbers(value),
    }
}

/// Whether that holds of each of the expressions.
#[cycle(numbers)]
fn have_numbers(exprs: &[Expr]) -> bool
    ensures { IsTrue result → HaveNumbers (trees_view exprs.now) }
{
    for expr in exprs {
        if !has_numbers(expr) {
            return false;
        }
    }
    true
}

/// Whether it holds of each of the parts.
#[cycle(numbers)]
fn parts_have_numbers(parts: &[NamedExpr]) -> bool
    ensures { IsTrue result → PartsHaveNumbers (named_view parts.now) }
{
    for part in parts {
        if !has_numbers(&part.value) {
            return false;
        }
    }
    true
}
