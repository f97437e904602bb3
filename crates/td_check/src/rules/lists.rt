//! The rules of selectors, relations and tuples by their parts, and of what EXTEND and SUMMARIZE
//! add.
ghost use Rattle.std.specs.Prelude.{◌≡◌, map};
ghost use Rattle.td_check.specs.code.ItemViews.{summary_item_view, items_view};
ghost use Rattle.td_check.specs.model.OperatorTypes.{are_types_of, element_type, extension_type};
ghost use Rattle.td_check.specs.model.OperatorTypes.{headed_type, item_type, listed_type};
ghost use Rattle.td_check.specs.model.OperatorTypes.{per_heading, selector_type, setting_type};
ghost use Rattle.td_check.specs.model.OperatorTypes.{summary_type, tuple_type};
ghost use Rattle.td_tree.specs.model.Outcomes.{Answers, Outcome, gathered};
ghost use Rattle.td_types.specs.code.Pairs.{pair_view};
ghost use Rattle.td_types.specs.model.Types.{Heading};
ghost use Rattle.td_types.specs.code.Views.{pairs_view, type_view};

use crate::rules::headings::{extended_by, set_heading};
use crate::rules::operand::aggregate_type;
use crate::rules::requirements::{relation_heading, tuple_heading};
use td_tree::cause::Cause;
use td_tree::fault::Fault;
use td_tree::gathering::{Gathering, both};
use td_tree::name::Name;
use td_tree::operator::Aggregate;
use td_types::heading::Heading;
use td_types::table::TypeTable;
use td_types::ty::Ty;

/// The type of a selector of the user type of that name, by the types of its arguments.
pub(crate) fn selector_type(types: &TypeTable, name: &Name, arguments: &[Ty]) -> Result<Ty, Fault>
    ensures { Answers type_view result
        (selector_type types.now name.now (map type_view arguments.now)) }
{
    let Some(entry) = types.get(name) else {
        return Err(Fault::Refused(Cause::NameUnknown));
    };
    if are_types_of(arguments, entry.components()) {
        Ok(Ty::User(name.try_clone()?))
    } else {
        Err(Fault::Refused(Cause::TypeMismatch))
    }
}

/// Whether these are, in number and order, the types of those attributes.
fn are_types_of(types: &[Ty], attributes: &[(Name, Ty)]) -> bool
    ensures { result ≡ are_types_of (map type_view types.now) (pairs_view attributes.now) }
{
    let mut rest = attributes;
    for ty in types {
        match rest {
            [(_, asked), later @ ..] if ty == asked => rest = later,
            _ => return false,
        }
    }
    rest.is_empty()
}

/// An element of a relation of the heading, which is a tuple of it.
fn element_type(heading: &Heading, element: &Ty) -> Result<(), Fault>
    ensures { Answers (λ _. type_view element.now) result
        (element_type heading.now (type_view element.now)) }
{
    if tuple_heading(element)? == heading {
        Ok(())
    } else {
        Err(Fault::Refused(Cause::Heading))
    }
}

/// The type of a relation with a heading, by the types of its elements.
pub(crate) fn headed_type(heading: Heading, elements: &[Ty]) -> Result<Ty, Fault>
    ensures { Answers type_view result (headed_type heading (map type_view elements.now)) }
{
    let mut causes = Gathering::new();
    for element in elements {
        causes.add(element_type(&heading, element))?;
    }
    causes.finish(Ty::Rel(heading))
}

/// The type of a relation without a heading: the first element gives it.
pub(crate) fn listed_type(elements: &[Ty]) -> Result<Ty, Fault>
    ensures { Answers type_view result (listed_type (map type_view elements.now)) }
{
    match elements {
        [] => Err(Fault::Refused(Cause::TypeMismatch)),
        [first, rest @ ..] => headed_type(tuple_heading(first)?.try_clone()?, rest),
    }
}

/// The type of a tuple of the attributes.
pub(crate) fn tuple_type(attributes: Vec<(Name, Ty)>) -> Result<Ty, Fault>
    ensures { Answers type_view result (tuple_type (pairs_view attributes.items)) }
{
    let alloc = *attributes.allocator();
    Ok(Ty::Tup(Heading::new(alloc, attributes)?))
}

/// The type of a relation of the heading with further attributes.
pub(crate) fn extension_type(heading: Heading, attributes: Vec<(Name, Ty)>) -> Result<Ty, Fault>
    ensures { Answers type_view result (extension_type heading (pairs_view attributes.items)) }
{
    Ok(Ty::Rel(extended_by(heading, attributes)?))
}

/// The type of a relation of the heading with attributes set.
pub(crate) fn setting_type(heading: &Heading, attributes: Vec<(Name, Ty)>) -> Result<Ty, Fault>
    ensures { Answers type_view result (setting_type heading.now (pairs_view attributes.items)) }
{
    Ok(Ty::Rel(set_heading(heading, attributes)?))
}

/// What SUMMARIZE adds.
#[derive(Drop)]
pub(crate) enum Item {
    /// How many tuples there are.
    Count,
    /// An aggregate of values of a type.
    Of(Aggregate, Ty),
}

/// The attribute that an item adds.
fn item_type(name: Name, item: Item) -> Result<(Name, Ty), Fault>
    ensures { Answers pair_view result (item_type (name, summary_item_view item)) }
{
    match item {
        Item::Count => Ok((name, Ty::Int)),
        Item::Of(op, value) => Ok((name, aggregate_type(op, value)?)),
    }
}

/// The attributes that items add.
fn item_types(items: Vec<(Name, Item)>) -> Result<Vec<(Name, Ty)>, Fault>
    ensures { Answers (λ a. pairs_view a.items) result
        (gathered (map item_type (items_view items.items))) }
{
    let mut causes = Gathering::new();
    let mut attributes = Vec::with_capacity(*items.allocator(), items.len())?;
    for (name, item) in items {
        causes.collect(&mut attributes, item_type(name, item))?;
    }
    causes.finish(attributes)
}

/// The type of SUMMARIZE over the heading by which it groups.
pub(crate) fn summary_type(
    groups: Result<Heading, Fault>,
    items: Vec<(Name, Item)>,
) -> Result<Ty, Fault>
    ensures { (o : Outcome Heading) → Answers (λ h. h) groups o
        → Answers type_view result (summary_type o (items_view items.items)) }
{
    let (heading, attributes) = both(groups, item_types(items))?;
    extension_type(heading, attributes)
}

/// The heading that PER gives: a part of the operand's.
pub(crate) fn per_heading(heading: &Heading, per: &Ty) -> Result<Heading, Fault>
    ensures { Answers (λ h. h) result (per_heading heading.now (type_view per.now)) }
{
    let part = relation_heading(per)?;
    if part.is_part_of(heading) {
        Ok(part.try_clone()?)
    } else {
        Err(Fault::Refused(Cause::Heading))
    }
}
