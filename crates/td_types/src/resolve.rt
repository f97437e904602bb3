//! The type that a type tree means where types are declared.
ghost use Rattle.td_tree.specs.model.Outcomes.{Answers, Outcome, Valued, value_if, with_value};
ghost use Rattle.td_tree.specs.code.TreeViews.{heading_tree_view, type_tree_view};
ghost use Rattle.td_tree.specs.declared.cause.Cause.TheVariants as causes;
ghost use Rattle.td_types.specs.code.Pairs.{pair_view};
ghost use Rattle.td_types.specs.model.TypeLists.{attributes_meant, heading_meant, is_declared};
ghost use Rattle.td_types.specs.model.TypeLists.{type_meant};
ghost use Rattle.td_types.specs.model.Types.{pack, relation, tuple, user};
ghost use Rattle.td_types.specs.code.Views.{pairs_view, type_view};

use crate::heading::Heading;
use crate::table::TypeTable;
use crate::ty::Ty;
use td_tree::cause::Cause;
use td_tree::fault::Fault;
use td_tree::gathering::Gathering;
use td_tree::name::Name;
use td_tree::type_tree::{AttributeTree, TypeTree};

/// The user type of that name.
fn user_type(table: &TypeTable, name: &Name) -> Result<Ty, Fault>
    ensures { Answers type_view result
        (value_if (is_declared name.now table.now) (user name.now) causes.NameUnknown) }
{
    if table.get(name).is_none() {
        return Err(Fault::Refused(Cause::NameUnknown));
    }
    Ok(Ty::User(name.try_clone()?))
}

/// The type that the tree means: refused where a user type in it is not declared, or where a name
/// comes twice in a heading.
#[cycle(resolve)]
pub fn resolve(table: &TypeTable, tree: &TypeTree) -> Result<Ty, Fault>
    ensures { Answers type_view result (type_meant table.now (type_tree_view tree.now)) }
{
    match tree {
        TypeTree::Integer => Ok(Ty::Int),
        TypeTree::Char => Ok(Ty::Text),
        TypeTree::Boolean => Ok(Ty::Bool),
        TypeTree::User(name) => user_type(table, name),
        TypeTree::Tuple(heading) => Ok(Ty::Tup(resolve_heading(table, heading)?)),
        TypeTree::Relation(heading) => Ok(Ty::Rel(resolve_heading(table, heading)?)),
    }
}

/// The heading that names with their types mean: refused as `resolve` refuses.
#[cycle(resolve)]
pub fn resolve_heading(table: &TypeTable, heading: &[AttributeTree]) -> Result<Heading, Fault>
    ensures { Answers (λ h. h) result
        (heading_meant table.now (heading_tree_view heading.now)) }
{
    let attributes = resolve_attributes(table, heading)?;
    Heading::new(table.allocator(), attributes)
}

/// The attributes in the order written: refused as `resolve` refuses.
#[cycle(resolve)]
pub fn resolve_attributes(
    table: &TypeTable,
    heading: &[AttributeTree],
) -> Result<Vec<(Name, Ty)>, Fault>
    ensures { Answers (λ a. pairs_view a.items) result
        (attributes_meant table.now (heading_tree_view heading.now)) }
{
    let mut causes = Gathering::new();
    let mut attributes = Vec::with_capacity(table.allocator(), heading.len())?;
    for attribute in heading {
        causes.collect(&mut attributes, resolve_attribute(table, attribute))?;
    }
    causes.finish(attributes)
}

/// The name with the type that it has.
#[cycle(resolve)]
fn resolve_attribute(table: &TypeTable, attribute: &AttributeTree) -> Result<(Name, Ty), Fault>
    ensures { Answers pair_view result
        (with_value (type_meant table.now (type_tree_view attribute.now.ty))
        (λ t. Valued (attribute.now.name, t))) }
{
    let ty = resolve(table, &attribute.ty)?;
    let name = attribute.name.try_clone()?;
    Ok((name, ty))
}
