//! The values of operators that put what is inside an attribute in its place, and of closures.
ghost use Rattle.td_check.specs.model.OperatorTypes.{attribute_type, over_relation, over_tuple};
ghost use Rattle.td_eval.specs.model.OperatorValues.{relation_where};
ghost use Rattle.td_group.specs.model.Closure.{closure};
ghost use Rattle.td_group.specs.model.Nesting.{can_unnest, unnested_relation};
ghost use Rattle.td_tree.specs.model.Outcomes.{Answers, Valued, with_value};
ghost use Rattle.td_types.specs.model.Headings.{is_closable};

use crate::operators::relational::{as_value, fit};
use std::alloc::Global;
use td_group::closure::tclose;
use td_group::nesting::can_unnest;
use td_group::unnesting::{ungroup, unwrap};
use td_tree::cause::Cause;
use td_tree::fault::Fault;
use td_tree::name::Name;
use td_types::heading::Heading;
use td_types::ty::Ty;
use td_value::relation::Rel;
use td_value::value::Value;

/// The heading in an attribute of a relation type: another type, or none, is refused.
fn relation_part<'a>(heading: &'a Heading, name: &Name) -> Result<&'a Heading, Fault>
    ensures { Answers (λ h. h.now) result
        (with_value (attribute_type name.now heading.now) (λ t. over_relation t Valued)) }
{
    match heading.get(name) {
        Some(Ty::Rel(part)) => Ok(part),
        Some(_) => Err(Fault::Refused(Cause::TypeMismatch)),
        None => Err(Fault::Refused(Cause::Heading)),
    }
}

/// The heading in an attribute of a tuple type: another type, or none, is refused.
fn tuple_part<'a>(heading: &'a Heading, name: &Name) -> Result<&'a Heading, Fault>
    ensures { Answers (λ h. h.now) result
        (with_value (attribute_type name.now heading.now) (λ t. over_tuple t Valued)) }
{
    match heading.get(name) {
        Some(Ty::Tup(part)) => Ok(part),
        Some(_) => Err(Fault::Refused(Cause::TypeMismatch)),
        None => Err(Fault::Refused(Cause::Heading)),
    }
}

/// The relation with the tuples of an attribute of a relation type in its place.
pub(crate) fn ungrouped_value(alloc: Global, rel: &Rel, name: &Name) -> Result<Value, Fault>
    ensures { Answers (λ v. v) result
        (with_value (attribute_type name.now rel.now.heading) (λ t. over_relation t (λ part.
        relation_where (can_unnest name.now rel.now.heading)
        (unnested_relation name.now rel.now)))) }
{
    relation_part(rel.heading(), name)?;
    fit(can_unnest(rel.heading(), name))?;
    as_value(alloc, ungroup(alloc, rel, name))
}

/// The relation with the attributes of an attribute of a tuple type in its place.
pub(crate) fn unwrapped_value(alloc: Global, rel: &Rel, name: &Name) -> Result<Value, Fault>
    ensures { Answers (λ v. v) result
        (with_value (attribute_type name.now rel.now.heading) (λ t. over_tuple t (λ part.
        relation_where (can_unnest name.now rel.now.heading)
        (unnested_relation name.now rel.now)))) }
{
    tuple_part(rel.heading(), name)?;
    fit(can_unnest(rel.heading(), name))?;
    as_value(alloc, unwrap(alloc, rel, name))
}

/// The transitive closure of a relation of two attributes of one type.
pub(crate) fn closure_value(alloc: Global, rel: &Rel) -> Result<Value, Fault>
    ensures { Answers (λ v. v) result
        (relation_where (is_closable rel.now.heading) (closure rel.now)) }
{
    fit(rel.heading().is_closable())?;
    as_value(alloc, tclose(alloc, rel))
}
