//! The values of operators behind their operands.
ghost use Rattle.std.specs.Prelude.{◌≡◌, IfOk, map};
ghost use Rattle.td_algebra.specs.model.Operators.{projected_relation, renamed_relation};
ghost use Rattle.td_check.specs.model.OperatorTypes.{renaming_pairs};
ghost use Rattle.td_eval.specs.model.OperatorValues.{listed_names, postfix_value, projected_names};
ghost use Rattle.td_eval.specs.model.OperatorValues.{relation_where};
ghost use Rattle.td_tree.specs.model.Outcomes.{Answers};
ghost use Rattle.td_tree.specs.code.TreeViews.{attributes_view, postfix_view, renaming_view};
ghost use Rattle.td_tree.specs.model.Trees.{all_but, project};
ghost use Rattle.td_types.specs.model.Headings.{can_rename, has_projection};
ghost use Rattle.td_types.specs.model.Types.{attribute_names};

use crate::operators::nesting::{grouped_value, wrapped_value};
use crate::operators::relational::{as_value, fit};
use crate::operators::requirements::relation_in;
use crate::operators::unnesting::{ungrouped_value, unwrapped_value};
use std::alloc::{AllocError, Global};
use td_algebra::projection::project;
use td_algebra::renaming::rename;
use td_check::rules::postfix::renaming_pairs;
use td_tree::expression::{Attributes, Postfix, Renaming};
use td_tree::fault::Fault;
use td_tree::name::Name;
use td_types::heading::Heading;
use td_value::relation::Rel;
use td_value::value::Value;

/// The names of a heading's attributes.
pub fn names_in(alloc: Global, heading: &Heading) -> Result<Vec<Name>, AllocError>
    ensures { IfOk result (λ names. names.items ≡ attribute_names heading.now) }
{
    let mut names = Vec::with_capacity(alloc, heading.len())?;
    for place in 0..heading.len() {
        let Some((name, _)) = heading.at(place) else {
            return Ok(names);
        };
        names.push(name.try_clone()?)?;
    }
    Ok(names)
}

/// The relation projected on the names.
fn projected_on(alloc: Global, rel: &Rel, names: &[Name]) -> Result<Value, Fault>
    ensures { Answers (λ v. v) result (relation_where (has_projection names.now rel.now.heading)
        (projected_relation names.now rel.now)) }
{
    fit(rel.heading().has_projection(names))?;
    as_value(alloc, project(alloc, rel, names))
}

/// The relation projected on the names of its other attributes.
fn projected_off(alloc: Global, rel: &Rel, names: &[Name]) -> Result<Value, Fault>
    ensures { Answers (λ v. v) result (relation_where (has_projection names.now rel.now.heading)
        (projected_relation (projected_names (all_but names.now) rel.now.heading) rel.now)) }
{
    let named = rel.heading().project(names)?;
    let rest = rel.heading().lacking(&named)?;
    rest.reveal();
    let kept = names_in(alloc, &rest)?;
    as_value(alloc, project(alloc, rel, &kept))
}

/// The relation with some of its attributes alone.
fn projected_value(alloc: Global, rel: &Rel, attributes: &Attributes) -> Result<Value, Fault>
    ensures { Answers (λ v. v) result (relation_where
        (has_projection (listed_names (attributes_view attributes.now)) rel.now.heading)
        (projected_relation
        (projected_names (attributes_view attributes.now) rel.now.heading) rel.now)) }
{
    match attributes {
        Attributes::Only(names) => projected_on(alloc, rel, names),
        Attributes::AllBut(names) => projected_off(alloc, rel, names),
    }
}

/// The projection of a value, which must be a relation.
pub fn projected_by(alloc: Global, operand: &Value, attributes: &Attributes) -> Result<Value, Fault>
    ensures { Answers (λ v. v) result
        (postfix_value (project (attributes_view attributes.now)) operand.now) }
{
    projected_value(alloc, relation_in(operand)?, attributes)
}

/// The relation with attributes renamed.
fn renamed_value(alloc: Global, rel: &Rel, renamings: &[Renaming]) -> Result<Value, Fault>
    ensures { Answers (λ v. v) result (relation_where
        (can_rename (renaming_pairs (map renaming_view renamings.now)) rel.now.heading)
        (renamed_relation (renaming_pairs (map renaming_view renamings.now)) rel.now)) }
{
    let pairs = renaming_pairs(alloc, renamings)?;
    fit(rel.heading().can_rename(&pairs)?)?;
    as_value(alloc, rename(alloc, rel, &pairs))
}

/// The value that the operator gives: each asks a relation.
pub fn postfix_value(alloc: Global, op: &Postfix, operand: &Value) -> Result<Value, Fault>
    ensures { Answers (λ v. v) result (postfix_value (postfix_view op.now) operand.now) }
{
    match op {
        Postfix::Project(attributes) => projected_by(alloc, operand, attributes),
        Postfix::Rename(_, renamings) => renamed_value(alloc, relation_in(operand)?, renamings),
        Postfix::Group(_, attributes, name) => {
            grouped_value(alloc, relation_in(operand)?, attributes, name)
        }
        Postfix::Ungroup(name) => ungrouped_value(alloc, relation_in(operand)?, name),
        Postfix::Wrap(_, attributes, name) => {
            wrapped_value(alloc, relation_in(operand)?, attributes, name)
        }
        Postfix::Unwrap(name) => unwrapped_value(alloc, relation_in(operand)?, name),
    }
}
