//! Copies of types and expressions. A text and a name share their bytes with their copies.
ghost use Rattle.std.specs.Prelude.{◌≡◌, IfOk, map};
ghost use Rattle.td_tree.specs.code.Copies.{Boxed};
ghost use Rattle.td_tree.specs.model.Trees as trees;
ghost use Rattle.td_tree.specs.code.TreeViews.{attributes_view, heading_tree_view, literal_view};
ghost use Rattle.td_tree.specs.code.TreeViews.{named_view, postfix_view, renaming_view};
ghost use Rattle.td_tree.specs.code.TreeViews.{summaries_view};
ghost use Rattle.td_tree.specs.code.TreeViews.{tree_view, trees_view, type_tree_view, with_summary};

use crate::both::both;
use crate::expression::{Attributes, Expr, Literal, NamedExpr, Postfix, Renaming, Summary};
use crate::name::Name;
use crate::remade;
use crate::type_tree::{AttributeTree, TypeTree};
use std::alloc::AllocError;

impl TypeTree {
    /// A copy of the type.
    #[cycle(copy_type)]
    pub fn try_clone(&self) -> Result<TypeTree, AllocError>
        ensures { IfOk result (λ copy. type_tree_view copy ≡ type_tree_view self.now) }
    {
        match self {
            TypeTree::Integer => Ok(TypeTree::Integer),
            TypeTree::Char => Ok(TypeTree::Char),
            TypeTree::Boolean => Ok(TypeTree::Boolean),
            TypeTree::User(name) => Ok(TypeTree::User(name.try_clone()?)),
            TypeTree::Tuple(heading) => { Ok(TypeTree::Tuple(copy_heading(heading)?)) }
            TypeTree::Relation(heading) => { Ok(TypeTree::Relation(copy_heading(heading)?)) }
        }
    }
}

#[cycle(copy_type)]
fn copy_heading(heading: &Vec<AttributeTree>) -> Result<Vec<AttributeTree>, AllocError>
    ensures { IfOk result (λ copy. heading_tree_view copy.items
        ≡ heading_tree_view heading.now.items) }
{
    let mut copy = Vec::with_capacity(*heading.allocator(), heading.len())?;
    for attribute in heading {
        let name = attribute.name.try_clone()?;
        let ty = attribute.ty.try_clone()?;
        copy.push(AttributeTree { name, ty })?;
    }
    Ok(copy)
}

impl Literal {
    /// A copy of the literal.
    pub fn try_clone(&self) -> Result<Literal, AllocError>
        ensures { IfOk result (λ copy. literal_view copy ≡ literal_view self.now) }
    {
        match self {
            Literal::Number { minus, magnitude } => Ok(Literal::Number {
                minus: *minus,
                magnitude: *magnitude,
            }),
            Literal::Text(content) => Ok(Literal::Text(content.clone()?)),
            Literal::Truth(value) => Ok(Literal::Truth(*value)),
            Literal::TableDee => Ok(Literal::TableDee),
            Literal::TableDum => Ok(Literal::TableDum),
        }
    }
}

fn copy_names(names: &Vec<Name>) -> Result<Vec<Name>, AllocError>
    ensures { IfOk result (λ copy. copy.items ≡ names.now.items) }
{
    let mut copy = Vec::with_capacity(*names.allocator(), names.len())?;
    for name in names {
        copy.push(name.try_clone()?)?;
    }
    Ok(copy)
}

impl Attributes {
    /// A copy of the attributes.
    pub fn try_clone(&self) -> Result<Attributes, AllocError>
        ensures { IfOk result (λ copy. attributes_view copy ≡ attributes_view self.now) }
    {
        match self {
            Attributes::Only(names) => Ok(Attributes::Only(copy_names(names)?)),
            Attributes::AllBut(names) => { Ok(Attributes::AllBut(copy_names(names)?)) }
        }
    }
}

fn copy_renamings(renamings: &Vec<Renaming>) -> Result<Vec<Renaming>, AllocError>
    ensures { IfOk result
        (λ copy. map renaming_view copy.items ≡ map renaming_view renamings.now.items) }
{
    let mut copy = Vec::with_capacity(*renamings.allocator(), renamings.len())?;
    for renaming in renamings {
        let old = renaming.old.try_clone()?;
        let new = renaming.new.try_clone()?;
        copy.push(Renaming { old, new })?;
    }
    Ok(copy)
}

impl Postfix {
    /// A copy of the operator.
    pub fn try_clone(&self) -> Result<Postfix, AllocError>
        ensures { IfOk result (λ copy. postfix_view copy ≡ postfix_view self.now) }
    {
        match self {
            Postfix::Project(attributes) => Ok(Postfix::Project(attributes.try_clone()?)),
            Postfix::Rename(style, renamings) => {
                Ok(Postfix::Rename(*style, copy_renamings(renamings)?))
            }
            Postfix::Group(style, attributes, name) => {
                let (attributes, name) = both(attributes.try_clone(), name.try_clone())?;
                Ok(Postfix::Group(*style, attributes, name))
            }
            Postfix::Ungroup(name) => Ok(Postfix::Ungroup(name.try_clone()?)),
            Postfix::Wrap(style, attributes, name) => {
                let (attributes, name) = both(attributes.try_clone(), name.try_clone())?;
                Ok(Postfix::Wrap(*style, attributes, name))
            }
            Postfix::Unwrap(name) => Ok(Postfix::Unwrap(name.try_clone()?)),
        }
    }
}

impl Expr {
    /// A copy of the expression.
    #[cycle(copy)]
    pub fn try_clone(&self) -> Result<Expr, AllocError>
        ensures { IfOk result (λ copy. tree_view copy ≡ tree_view self.now) }
    {
        match self {
            Expr::Literal(value) => remade::literal(value.try_clone()),
            Expr::Name(name) => remade::name(name.try_clone()),
            Expr::Parentheses(inner) => remade::parentheses(box_with_copy(inner)),
            Expr::Prefix(op, operand) => remade::prefix(*op, box_with_copy(operand)),
            Expr::Extract(name, operand) => remade::extract(
                name.try_clone(),
                box_with_copy(operand),
            ),
            Expr::Restriction(operand, condition) => {
                remade::restriction(box_with_copy(operand), box_with_copy(condition))
            }
            Expr::Binary(left, op, right) => remade::binary(
                box_with_copy(left),
                *op,
                box_with_copy(right),
            ),
            Expr::Compare(left, op, right) => remade::compare(
                box_with_copy(left),
                *op,
                box_with_copy(right),
            ),
            Expr::Postfix(operand, op) => remade::postfix(box_with_copy(operand), op.try_clone()),
            Expr::Select(ty, arguments) => remade::select(ty.try_clone(), copy_list(arguments)),
            Expr::Component(rest, operand) => remade::component(
                rest.clone(),
                box_with_copy(operand),
            ),
            Expr::Measure(op, operand) => remade::measure(*op, box_with_copy(operand)),
            Expr::Aggregate(op, left, right) => remade::aggregate(
                *op,
                box_with_copy(left),
                box_with_copy(right),
            ),
            Expr::Relation(elements) => remade::relation(copy_list(elements)),
            Expr::HeadedRelation(heading, elements) => {
                remade::headed_relation(copy_heading(heading), copy_list(elements))
            }
            Expr::Tuple(parts) => remade::tuple(copy_parts(parts)),
            Expr::Extend(operand, parts) => remade::extend(
                box_with_copy(operand),
                copy_parts(parts),
            ),
            Expr::ExtendSetting(operand, parts) => {
                remade::extend_setting(box_with_copy(operand), copy_parts(parts))
            }
            Expr::SummarizePer(operand, per, added) => {
                remade::summarize_per(
                    box_with_copy(operand),
                    box_with_copy(per),
                    copy_summaries(added),
                )
            }
            Expr::SummarizeBy(operand, by, added) => {
                remade::summarize_by(
                    box_with_copy(operand),
                    by.try_clone(),
                    copy_summaries(added),
                )
            }
            Expr::If(condition, yes, no) => {
                remade::choice(
                    box_with_copy(condition),
                    box_with_copy(yes),
                    box_with_copy(no),
                )
            }
            Expr::With(items, result) => {
                remade::binding(copy_parts(items), box_with_copy(result))
            }
        }
    }
}

/// The same expression in a box of its own.
#[cycle(copy)]
fn box_with_copy(expression: &Box<Expr>) -> Result<Box<Expr>, AllocError>
    ensures { Boxed result (tree_view expression.now.value) }
{
    let copy = expression.try_clone()?;
    Ok(Box::new(*Box::allocator(expression), copy)?)
}

#[cycle(copy)]
fn copy_list(expressions: &Vec<Expr>) -> Result<Vec<Expr>, AllocError>
    ensures { IfOk result (λ copy. trees_view copy.items ≡ trees_view expressions.now.items) }
{
    let mut copy = Vec::with_capacity(*expressions.allocator(), expressions.len())?;
    for expression in expressions {
        copy.push(expression.try_clone()?)?;
    }
    Ok(copy)
}

#[cycle(copy)]
fn copy_parts(parts: &Vec<NamedExpr>) -> Result<Vec<NamedExpr>, AllocError>
    ensures { IfOk result (λ copy. named_view copy.items ≡ named_view parts.now.items) }
{
    let mut copy = Vec::with_capacity(*parts.allocator(), parts.len())?;
    for part in parts {
        let name = part.name.try_clone()?;
        let value = part.value.try_clone()?;
        copy.push(NamedExpr { name, value })?;
    }
    Ok(copy)
}

#[cycle(copy)]
fn copy_summaries(summaries: &Vec<Summary>) -> Result<Vec<Summary>, AllocError>
    ensures { IfOk result (λ copy. summaries_view copy.items ≡ summaries_view summaries.now.items) }
{
    let mut copy = Vec::with_capacity(*summaries.allocator(), summaries.len())?;
    for summary in summaries {
        copy.push(summary.try_clone()?)?;
    }
    Ok(copy)
}

impl Summary {
    #[cycle(copy)]
    fn try_clone(&self) -> Result<Summary, AllocError>
        ensures { IfOk result
            (λ copy. (rest : trees.Summaries) → with_summary copy rest
            ≡ with_summary self.now rest) }
    {
        match self {
            Summary::Count(name) => Ok(Summary::Count(name.try_clone()?)),
            Summary::Of(op, value, name) => {
                let (value, name) = both(value.try_clone(), name.try_clone())?;
                Ok(Summary::Of(*op, value, name))
            }
        }
    }
}
