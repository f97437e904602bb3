//! The values of operators that put attributes into one.
ghost use Rattle.td_eval.specs.model.OperatorValues.{nested_names, of_relation};
ghost use Rattle.td_group.specs.model.Nesting.{grouped_relation, wrapped_relation};
ghost use Rattle.td_tree.specs.model.Outcomes.{Answers, with_value};
ghost use Rattle.td_tree.specs.code.TreeViews.{attributes_view};

use crate::operators::postfix::names_in;
use crate::operators::relational::{as_value, fit};
use std::alloc::Global;
use td_check::rules::headings::named_part;
use td_group::grouping::group;
use td_group::nesting::can_nest;
use td_group::wrapping::wrap;
use td_tree::expression::Attributes;
use td_tree::fault::Fault;
use td_tree::name::Name;
use td_types::heading::Heading;
use td_value::relation::Rel;
use td_value::value::Value;

/// The names of the attributes that are put into a new one: refused where that can't be done.
fn nested_names(
    alloc: Global,
    heading: &Heading,
    attributes: &Attributes,
    name: &Name,
) -> Result<Vec<Name>, Fault>
    ensures { Answers (λ ns. ns.items) result
        (nested_names (attributes_view attributes.now) name.now heading.now) }
{
    let part = named_part(heading, attributes)?;
    let names = names_in(alloc, &part)?;
    fit(can_nest(heading, &names, name))?;
    Ok(names)
}

/// The relation with attributes put into one of a relation type.
pub(crate) fn grouped_value(
    alloc: Global,
    rel: &Rel,
    attributes: &Attributes,
    name: &Name,
) -> Result<Value, Fault>
    ensures { Answers (λ v. v) result (with_value
        (nested_names (attributes_view attributes.now) name.now rel.now.heading)
        (λ names. of_relation (grouped_relation names name.now rel.now))) }
{
    let names = nested_names(alloc, rel.heading(), attributes, name)?;
    as_value(alloc, group(alloc, rel, &names, name.try_clone()?))
}

/// The relation with attributes put into one of a tuple type.
pub(crate) fn wrapped_value(
    alloc: Global,
    rel: &Rel,
    attributes: &Attributes,
    name: &Name,
) -> Result<Value, Fault>
    ensures { Answers (λ v. v) result (with_value
        (nested_names (attributes_view attributes.now) name.now rel.now.heading)
        (λ names. of_relation (wrapped_relation names name.now rel.now))) }
{
    let names = nested_names(alloc, rel.heading(), attributes, name)?;
    as_value(alloc, wrap(alloc, rel, &names, name.try_clone()?))
}
