//! Headings that the rules make: each refuses by the cause of headings, or wants memory.
ghost use Rattle.td_check.specs.model.OperatorTypes.{attribute_type, composed_heading, extended_by};
ghost use Rattle.td_check.specs.model.OperatorTypes.{joined_apart, named_part, set_heading};
ghost use Rattle.td_tree.specs.model.Outcomes.{Answers};
ghost use Rattle.td_tree.specs.code.TreeViews.{attributes_view};
ghost use Rattle.td_types.specs.code.Views.{pairs_view, type_view};

use crate::rules::requirements::ask;
use td_tree::cause::Cause;
use td_tree::expression::Attributes;
use td_tree::fault::Fault;
use td_tree::name::Name;
use td_types::heading::Heading;
use td_types::ty::Ty;

/// The type of the attribute of that name, which must be there.
pub(crate) fn attribute_type<'a>(heading: &'a Heading, name: &Name) -> Result<&'a Ty, Fault>
    ensures { Answers (λ t. type_view t.now) result (attribute_type name.now heading.now) }
{
    heading.get(name).ok_or(Fault::Refused(Cause::Heading))
}

/// The attributes that are named, or those that are not: refused where a name is not there or
/// comes twice.
pub fn named_part(heading: &Heading, attributes: &Attributes) -> Result<Heading, Fault>
    ensures { Answers (λ h. h) result (named_part (attributes_view attributes.now) heading.now) }
{
    match attributes {
        Attributes::Only(names) => heading.project(names),
        Attributes::AllBut(names) => {
            let named = heading.project(names)?;
            Ok(heading.lacking(&named)?)
        }
    }
}

/// The heading with further attributes: refused where a name is there or comes twice.
pub(crate) fn extended_by(heading: Heading, attributes: Vec<(Name, Ty)>) -> Result<Heading, Fault>
    ensures { Answers (λ h. h) result (extended_by heading (pairs_view attributes.items)) }
{
    let mut extended = heading;
    for (name, ty) in attributes {
        extended = extended.with(name, ty)?;
    }
    Ok(extended)
}

/// The heading with attributes set: one of a name that is there is replaced, others are added.
/// Refused where a name comes twice among them.
pub(crate) fn set_heading(heading: &Heading, attributes: Vec<(Name, Ty)>) -> Result<Heading, Fault>
    ensures { Answers (λ h. h) result (set_heading heading.now (pairs_view attributes.items)) }
{
    let alloc = *attributes.allocator();
    let set = Heading::new(alloc, attributes)?;
    heading.reveal();
    let others = heading.lacking(&set)?;
    others.union(&set)
}

/// The attributes of both: refused where they have one in common.
pub(crate) fn joined_apart(heading: &Heading, other: &Heading) -> Result<Heading, Fault>
    ensures { Answers (λ h. h) result (joined_apart heading.now other.now) }
{
    ask(heading.is_apart_from(other), Cause::Heading)?;
    heading.union(other)
}

/// The attributes that only one of them has: refused where one that both have has two types.
pub(crate) fn composed_heading(heading: &Heading, other: &Heading) -> Result<Heading, Fault>
    ensures { Answers (λ h. h) result (composed_heading heading.now other.now) }
{
    let common = heading.common(other)?;
    let left = heading.lacking(&common)?;
    let right = other.lacking(&common)?;
    left.union(&right)
}
