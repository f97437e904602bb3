//! The names that stand in an expression, whatever is known.
ghost use Rattle.std.specs.Cmp.Lexicographic.{slice_cmp};
ghost use Rattle.std.specs.List.Sorted.{IsStrictlySortedBy};
ghost use Rattle.std.specs.Ordering.{nat_cmp};
ghost use Rattle.std.specs.Prelude.{◌≡◌, ◌∷◌, ◌++◌, [], IfOk, OnOk};
ghost use Rattle.td_check.specs.model.Mentions.{name_set};
ghost use Rattle.td_check.specs.laws.WrittenNames.{names_in, names_in_all, names_in_items};
ghost use Rattle.td_check.specs.laws.WrittenNames.{names_in_named};
ghost use Rattle.td_tree.specs.code.TreeViews.{named_view, summaries_view, tree_view, trees_view};

use crate::mentions::name_set;
use std::alloc::{AllocError, Global};
use td_tree::expression::{Expr, NamedExpr, Summary};
use td_tree::name::Name;

/// Adds the names that stand in an expression.
#[cycle(written)]
fn add_names(expr: &Expr, names: &mut Vec<Name>) -> Result<(), AllocError>
    ensures { OnOk result (names.new.items ≡ names.old.items ++ names_in (tree_view expr.now)) }
{
    match expr {
        Expr::Literal(_) => Ok(()),
        Expr::Name(name) => Ok(names.push(name.try_clone()?)?),
        Expr::Parentheses(operand)
        | Expr::Prefix(_, operand)
        | Expr::Extract(_, operand)
        | Expr::Postfix(operand, _)
        | Expr::Component(_, operand)
        | Expr::Measure(_, operand) => add_names(operand, names),
        Expr::Restriction(first, second)
        | Expr::Binary(first, _, second)
        | Expr::Compare(first, _, second)
        | Expr::Aggregate(_, first, second) => {
            add_names(first, names)?;
            add_names(second, names)
        }
        Expr::Select(_, exprs) | Expr::Relation(exprs) | Expr::HeadedRelation(_, exprs) => {
            add_all(exprs, names)
        }
        Expr::Tuple(parts) => add_named(parts, names),
        Expr::Extend(operand, parts) | Expr::ExtendSetting(operand, parts) => {
            add_names(operand, names)?;
            add_named(parts, names)
        }
        Expr::SummarizePer(operand, per, items) => {
            add_names(operand, names)?;
            add_names(per, names)?;
            add_items(items, names)
        }
        Expr::SummarizeBy(operand, _, items) => {
            add_names(operand, names)?;
            add_items(items, names)
        }
        Expr::If(condition, first, second) => {
            add_names(condition, names)?;
            add_names(first, names)?;
            add_names(second, names)
        }
        Expr::With(items, result) => {
            add_named(items, names)?;
            add_names(result, names)
        }
    }
}

/// Adds those in each expression.
#[cycle(written)]
fn add_all(exprs: &[Expr], names: &mut Vec<Name>) -> Result<(), AllocError>
    ensures { OnOk result
        (names.new.items ≡ names.old.items ++ names_in_all (trees_view exprs.now)) }
{
    for expr in exprs {
        add_names(expr, names)?;
    }
    Ok(())
}

/// Adds those in each named expression.
#[cycle(written)]
fn add_named(parts: &[NamedExpr], names: &mut Vec<Name>) -> Result<(), AllocError>
    ensures { OnOk result
        (names.new.items ≡ names.old.items ++ names_in_named (named_view parts.now)) }
{
    for part in parts {
        add_names(&part.value, names)?;
    }
    Ok(())
}

/// Adds those in an item of `SUMMARIZE`.
#[cycle(written)]
fn add_item(item: &Summary, names: &mut Vec<Name>) -> Result<(), AllocError>
    ensures { OnOk result (names.new.items
        ≡ names.old.items ++ names_in_items (summaries_view (item.now ∷ []))) }
{
    match item {
        Summary::Count(_) => Ok(()),
        Summary::Of(_, value, _) => add_names(value, names),
    }
}

/// Adds those in each item.
#[cycle(written)]
fn add_items(items: &[Summary], names: &mut Vec<Name>) -> Result<(), AllocError>
    ensures { OnOk result
        (names.new.items ≡ names.old.items ++ names_in_items (summaries_view items.now)) }
{
    for item in items {
        add_item(item, names)?;
    }
    Ok(())
}

/// The names that stand as expressions in the expression, each once, ascending. Whatever is known,
/// the relvars that it mentions are among them.
pub fn names_in(alloc: Global, expr: &Expr) -> Result<Vec<Name>, AllocError>
    ensures names { IfOk result (λ names. names.items ≡ name_set (names_in (tree_view expr.now))) }
    ensures ascending { IfOk result (λ names.
        IsStrictlySortedBy (slice_cmp nat_cmp) names.items) }
{
    let mut names = Vec::new(alloc);
    add_names(expr, &mut names)?;
    name_set(names)
}
