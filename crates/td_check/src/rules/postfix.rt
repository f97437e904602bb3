//! The types that operators behind their operands give.
ghost use Rattle.std.specs.Prelude.{◌≡◌, IfOk, map};
ghost use Rattle.td_check.specs.model.OperatorTypes.{attribute_type, joined_apart, named_part};
ghost use Rattle.td_check.specs.model.OperatorTypes.{over_relation, over_tuple, postfix_type};
ghost use Rattle.td_check.specs.model.OperatorTypes.{relation_if, renaming_pairs};
ghost use Rattle.td_tree.specs.model.Outcomes.{Answers, with_value};
ghost use Rattle.td_tree.specs.code.TreeViews.{attributes_view, postfix_view, renaming_view};
ghost use Rattle.td_types.specs.model.Headings.{extended_heading, outside, renamed_heading};
ghost use Rattle.td_types.specs.model.Headings.{without_attribute};
ghost use Rattle.td_types.specs.model.Types.{pack, relation, tuple};
ghost use Rattle.td_types.specs.code.Views.{type_view};

use crate::rules::headings::{attribute_type, joined_apart, named_part};
use crate::rules::requirements::{relation_heading, tuple_heading};
use std::alloc::{AllocError, Global};
use td_tree::expression::{Attributes, Postfix, Renaming};
use td_tree::fault::Fault;
use td_tree::name::Name;
use td_types::heading::Heading;
use td_types::ty::Ty;

/// The type of a projection.
fn projected_type(heading: &Heading, attributes: &Attributes) -> Result<Ty, Fault>
    ensures { Answers type_view result
        (relation_if (named_part (attributes_view attributes.now) heading.now)) }
{
    Ok(Ty::Rel(named_part(heading, attributes)?))
}

/// The renamings as pairs of an old and a new name.
pub fn renaming_pairs(
    alloc: Global,
    renamings: &[Renaming],
) -> Result<Vec<(Name, Name)>, AllocError>
    ensures { IfOk result (λ pairs.
        pairs.items ≡ renaming_pairs (map renaming_view renamings.now)) }
{
    let mut pairs = Vec::with_capacity(alloc, renamings.len())?;
    for renaming in renamings {
        let old = renaming.old.try_clone()?;
        let new = renaming.new.try_clone()?;
        pairs.push((old, new))?;
    }
    Ok(pairs)
}

/// The type with attributes renamed.
fn renamed_type(alloc: Global, heading: &Heading, renamings: &[Renaming]) -> Result<Ty, Fault>
    ensures { Answers type_view result (relation_if
        (renamed_heading (renaming_pairs (map renaming_view renamings.now)) heading.now)) }
{
    let pairs = renaming_pairs(alloc, renamings)?;
    Ok(Ty::Rel(heading.rename(&pairs)?))
}

/// The type with the attributes as one of a relation type.
fn grouped_type(heading: &Heading, attributes: &Attributes, name: &Name) -> Result<Ty, Fault>
    ensures { Answers type_view result
        (with_value (named_part (attributes_view attributes.now) heading.now) (λ part. relation_if
        (extended_heading (outside part heading.now) (name.now, relation (pack part))))) }
{
    let part = named_part(heading, attributes)?;
    let rest = heading.lacking(&part)?;
    let name = name.try_clone()?;
    Ok(Ty::Rel(rest.with(name, Ty::Rel(part))?))
}

/// The type with the attributes as one of a tuple type.
fn wrapped_type(heading: &Heading, attributes: &Attributes, name: &Name) -> Result<Ty, Fault>
    ensures { Answers type_view result
        (with_value (named_part (attributes_view attributes.now) heading.now) (λ part. relation_if
        (extended_heading (outside part heading.now) (name.now, tuple (pack part))))) }
{
    let part = named_part(heading, attributes)?;
    let rest = heading.lacking(&part)?;
    let name = name.try_clone()?;
    Ok(Ty::Rel(rest.with(name, Ty::Tup(part))?))
}

/// The type with the attributes of an attribute of a relation type in its place.
fn ungrouped_type(heading: &Heading, name: &Name) -> Result<Ty, Fault>
    ensures { Answers type_view result
        (with_value (attribute_type name.now heading.now) (λ s. over_relation s (λ part.
        relation_if (joined_apart (without_attribute name.now heading.now) part)))) }
{
    let part = relation_heading(attribute_type(heading, name)?)?;
    let rest = heading.without(name)?;
    Ok(Ty::Rel(joined_apart(&rest, part)?))
}

/// The type with the attributes of an attribute of a tuple type in its place.
fn unwrapped_type(heading: &Heading, name: &Name) -> Result<Ty, Fault>
    ensures { Answers type_view result
        (with_value (attribute_type name.now heading.now) (λ s. over_tuple s (λ part.
        relation_if (joined_apart (without_attribute name.now heading.now) part)))) }
{
    let part = tuple_heading(attribute_type(heading, name)?)?;
    let rest = heading.without(name)?;
    Ok(Ty::Rel(joined_apart(&rest, part)?))
}

/// The type that the operator gives: each asks a relation.
pub(crate) fn postfix_type(op: &Postfix, operand: &Ty) -> Result<Ty, Fault>
    ensures { Answers type_view result
        (postfix_type (postfix_view op.now) (type_view operand.now)) }
{
    let heading = relation_heading(operand)?;
    match op {
        Postfix::Project(attributes) => projected_type(heading, attributes),
        Postfix::Rename(_, renamings) => renamed_type(*renamings.allocator(), heading, renamings),
        Postfix::Group(_, attributes, name) => grouped_type(heading, attributes, name),
        Postfix::Ungroup(name) => ungrouped_type(heading, name),
        Postfix::Wrap(_, attributes, name) => wrapped_type(heading, attributes, name),
        Postfix::Unwrap(name) => unwrapped_type(heading, name),
    }
}
