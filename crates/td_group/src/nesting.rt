//! Tests of what the operators that nest and unnest attributes ask.
ghost use Rattle.std.specs.Prelude.{◌≡◌};
ghost use Rattle.td_group.specs.model.Nesting.{can_nest, can_unnest};

use td_tree::name::Name;
use td_types::heading::Heading;
use td_types::names::is_among;
use td_types::ty::Ty;

/// Whether the attributes of the names can be put into one of the new name: each is there, none
/// comes twice, and no other attribute has the new name.
pub fn can_nest(heading: &Heading, names: &[Name], name: &Name) -> bool
    ensures { result ≡ can_nest names.now name.now heading.now }
{
    heading.has_projection(names) && (is_among(name, names) || heading.get(name).is_none())
}

/// Whether what is inside the attribute can stand in its place: no other attribute has a name of
/// it.
pub fn can_unnest(heading: &Heading, name: &Name) -> bool
    ensures { result ≡ can_unnest name.now heading.now }
{
    match heading.get(name) {
        Some(Ty::Tup(inner)) => heading.is_apart_but_for(name, inner),
        Some(Ty::Rel(inner)) => heading.is_apart_but_for(name, inner),
        _ => true,
    }
}
