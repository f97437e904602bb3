//! What holds of every expression, since names are names and texts are UTF-8: it is written as
//! tokens spell it.
ghost use Rattle.std.specs.Prelude.{map};
ghost use Rattle.std.specs.List.{AllByRecursion};
ghost use Rattle.td_tree.specs.model.Names.{IsName};
ghost use Rattle.td_tree.specs.model.WrittenTrees.{GiveNames, HasNames, HaveNames, HaveTexts};
ghost use Rattle.td_tree.specs.model.WrittenTrees.{IsUtf8Literal, IsWritten, ItemsGiveNames};
ghost use Rattle.td_tree.specs.model.WrittenTrees.{ItemsHaveTexts, OperatorGivesNames};
ghost use Rattle.td_tree.specs.model.WrittenTrees.{PartsGiveNames, PartsHaveTexts};
ghost use Rattle.td_tree.specs.code.TreeViews.{heading_tree_view, literal_view, named_view};
ghost use Rattle.td_tree.specs.code.TreeViews.{postfix_view, renaming_view, summaries_view};
ghost use Rattle.td_tree.specs.code.TreeViews.{tree_view, trees_view, type_tree_view};

use crate::expression::{Expr, Literal, NamedExpr, Postfix, Renaming, Summary};
use crate::type_tree::{AttributeTree, TypeTree};

impl TypeTree {
    /// What holds of every type: the names in it are names. It takes time by its size.
    #[cycle(written_type)]
    pub fn reveal(&self)
        ensures { HasNames (type_tree_view self.now) }
    {
        match self {
            TypeTree::Integer | TypeTree::Char | TypeTree::Boolean => {}
            TypeTree::User(name) => name.reveal(),
            TypeTree::Tuple(heading) | TypeTree::Relation(heading) => reveal_heading(heading),
        }
    }
}

/// What holds of every heading: the names in it are names. It takes time by its size.
#[cycle(written_type)]
pub fn reveal_heading(heading: &[AttributeTree])
    ensures { HaveNames (heading_tree_view heading.now) }
{
    for attribute in heading {
        attribute.name.reveal();
        attribute.ty.reveal();
    }
}

impl Literal {
    /// What holds of every literal: a text is UTF-8.
    fn reveal(&self)
        ensures { IsUtf8Literal (literal_view self.now) }
    {
        if let Literal::Text(content) = self {
            let _ = content.as_str();
        }
    }
}

/// What holds of renamings: the new names are names.
fn reveal_renamings(renamings: &[Renaming])
    ensures { AllByRecursion (λ r. IsName r.new) (map renaming_view renamings.now) }
{
    for renaming in renamings {
        renaming.new.reveal();
    }
}

impl Postfix {
    /// What holds of every operator behind its operand: the names that it gives are names.
    fn reveal(&self)
        ensures { OperatorGivesNames (postfix_view self.now) }
    {
        match self {
            Postfix::Project(_) | Postfix::Ungroup(_) | Postfix::Unwrap(_) => {}
            Postfix::Rename(_, renamings) => reveal_renamings(renamings),
            Postfix::Group(_, _, name) | Postfix::Wrap(_, _, name) => name.reveal(),
        }
    }
}

impl Expr {
    /// What holds of every expression: the names that it gives are names and its texts are UTF-8,
    /// at every depth. It takes time by its size, and no memory.
    #[cycle(written)]
    pub fn reveal(&self)
        ensures { IsWritten (tree_view self.now) }
    {
        match self {
            Expr::Literal(literal) => literal.reveal(),
            Expr::Name(_) => {}
            Expr::Parentheses(operand)
            | Expr::Prefix(_, operand)
            | Expr::Extract(_, operand)
            | Expr::Component(_, operand)
            | Expr::Measure(_, operand) => operand.reveal(),
            Expr::Postfix(operand, operator) => {
                operand.reveal();
                operator.reveal();
            }
            Expr::Restriction(left, right)
            | Expr::Binary(left, _, right)
            | Expr::Compare(left, _, right)
            | Expr::Aggregate(_, left, right) => {
                left.reveal();
                right.reveal();
            }
            Expr::Select(_, elements) | Expr::Relation(elements) => reveal_all(elements),
            Expr::HeadedRelation(heading, elements) => {
                reveal_heading(heading);
                reveal_all(elements);
            }
            Expr::Tuple(parts) => reveal_parts(parts),
            Expr::Extend(operand, parts) | Expr::ExtendSetting(operand, parts) => {
                operand.reveal();
                reveal_parts(parts);
            }
            Expr::SummarizePer(operand, per, summaries) => {
                operand.reveal();
                per.reveal();
                reveal_summaries(summaries);
            }
            Expr::SummarizeBy(operand, _, summaries) => {
                operand.reveal();
                reveal_summaries(summaries);
            }
            Expr::If(condition, consequent, alternative) => {
                condition.reveal();
                consequent.reveal();
                alternative.reveal();
            }
            Expr::With(items, result) => {
                reveal_parts(items);
                result.reveal();
            }
        }
    }
}

#[cycle(written)]
fn reveal_all(elements: &[Expr])
    ensures names { GiveNames (trees_view elements.now) }
    ensures texts { HaveTexts (trees_view elements.now) }
{
    for element in elements {
        element.reveal();
    }
}

#[cycle(written)]
fn reveal_parts(parts: &[NamedExpr])
    ensures names { PartsGiveNames (named_view parts.now) }
    ensures texts { PartsHaveTexts (named_view parts.now) }
{
    for part in parts {
        part.name.reveal();
        part.value.reveal();
    }
}

#[cycle(written)]
fn reveal_summaries(summaries: &[Summary])
    ensures names { ItemsGiveNames (summaries_view summaries.now) }
    ensures texts { ItemsHaveTexts (summaries_view summaries.now) }
{
    for summary in summaries {
        match summary {
            Summary::Count(name) => name.reveal(),
            Summary::Of(_, value, name) => {
                value.reveal();
                name.reveal();
            }
        }
    }
}
