//! How high a tree is: 1 without parts, else one more than its highest part. `u64::MAX` stands for
//! what is greater.
ghost use Rattle.std.specs.Prelude.{◌≡◌, ◌+◌, ◌-◌, ◌^◌, min};
ghost use Rattle.td_tree.specs.model.Heights.{attributes_height, height, highest, highest_named};
ghost use Rattle.td_tree.specs.model.Heights.{highest_summary, type_height};
ghost use Rattle.td_tree.specs.code.TreeViews.{heading_tree_view, named_view, summaries_view};
ghost use Rattle.td_tree.specs.code.TreeViews.{tree_view};
ghost use Rattle.td_tree.specs.code.TreeViews.{trees_view, type_tree_view};

use crate::expression::{Expr, NamedExpr, Summary};
use crate::type_tree::{AttributeTree, TypeTree};

impl TypeTree {
    /// How high the type is.
    #[cycle(type_height)]
    pub fn height(&self) -> u64
        ensures { result ≡ min (type_height (type_tree_view self.now)) (2 ^ 64 - 1) }
    {
        match self {
            TypeTree::Integer | TypeTree::Char | TypeTree::Boolean | TypeTree::User(_) => 1,
            TypeTree::Tuple(heading) | TypeTree::Relation(heading) => {
                highest_type(heading).saturating_add(1)
            }
        }
    }
}

/// How high the highest type of a heading is.
#[cycle(type_height)]
pub fn highest_type(heading: &[AttributeTree]) -> u64
    ensures { result ≡ min (attributes_height (heading_tree_view heading.now)) (2 ^ 64 - 1) }
{
    let mut highest = 0;
    for attribute in heading {
        highest = attribute.ty.height().max(highest);
    }
    highest
}

impl Expr {
    /// How high the expression is.
    #[cycle(height)]
    pub fn height(&self) -> u64
        ensures { result ≡ min (height (tree_view self.now)) (2 ^ 64 - 1) }
    {
        self.highest_part().saturating_add(1)
    }

    #[cycle(height)]
    fn highest_part(&self) -> u64
        ensures { min (result + 1) (2 ^ 64 - 1) ≡ min (height (tree_view self.now)) (2 ^ 64 - 1) }
    {
        match self {
            Expr::Literal(_) | Expr::Name(_) => 0,
            Expr::Parentheses(operand)
            | Expr::Prefix(_, operand)
            | Expr::Extract(_, operand)
            | Expr::Postfix(operand, _)
            | Expr::Component(_, operand)
            | Expr::Measure(_, operand) => operand.height(),
            Expr::Restriction(left, right)
            | Expr::Binary(left, _, right)
            | Expr::Compare(left, _, right)
            | Expr::Aggregate(_, left, right) => left.height().max(right.height()),
            Expr::Select(_, elements) | Expr::Relation(elements) => highest(elements),
            Expr::HeadedRelation(heading, elements) => highest_type(heading)
                .saturating_add(1)
                .max(highest(elements)),
            Expr::Tuple(parts) => highest_named(parts),
            Expr::Extend(operand, parts) | Expr::ExtendSetting(operand, parts) => {
                operand.height().max(highest_named(parts))
            }
            Expr::SummarizePer(operand, per, summaries) => operand
                .height()
                .max(per.height())
                .max(highest_summary(summaries)),
            Expr::SummarizeBy(operand, _, summaries) => {
                operand.height().max(highest_summary(summaries))
            }
            Expr::If(condition, consequent, alternative) => condition
                .height()
                .max(consequent.height())
                .max(alternative.height()),
            Expr::With(items, result) => highest_named(items).max(result.height()),
        }
    }
}

#[cycle(height)]
fn highest(elements: &[Expr]) -> u64
    ensures { result ≡ min (highest (trees_view elements.now)) (2 ^ 64 - 1) }
{
    let mut highest = 0;
    for element in elements {
        highest = element.height().max(highest);
    }
    highest
}

#[cycle(height)]
fn highest_named(parts: &[NamedExpr]) -> u64
    ensures { result ≡ min (highest_named (named_view parts.now)) (2 ^ 64 - 1) }
{
    let mut highest = 0;
    for part in parts {
        highest = part.value.height().max(highest);
    }
    highest
}

#[cycle(height)]
fn highest_summary(summaries: &[Summary]) -> u64
    ensures { result ≡ min (highest_summary (summaries_view summaries.now)) (2 ^ 64 - 1) }
{
    let mut highest = 0;
    for summary in summaries {
        if let Summary::Of(_, value, _) = summary {
            highest = value.height().max(highest);
        }
    }
    highest
}
