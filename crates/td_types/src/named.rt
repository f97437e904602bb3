//! Whether a user type stands in a type.
ghost use Rattle.std.specs.Prelude.{◌≡◌};
ghost use Rattle.td_types.specs.model.NamedTypes.{any_names_user, names_user};
ghost use Rattle.td_types.specs.model.Types.{pack};
ghost use Rattle.td_types.specs.code.Views.{pairs_view, type_view};

use crate::heading::Heading;
use crate::ty::Ty;
use td_tree::name::Name;

/// Whether the user type of that name stands in the type.
#[cycle(named)]
fn type_names_user(ty: &Ty, name: &Name) -> bool
    ensures { result ≡ names_user name.now (type_view ty.now) }
{
    match ty {
        Ty::Bool | Ty::Int | Ty::Text => false,
        Ty::User(other) => other == name,
        Ty::Tup(heading) | Ty::Rel(heading) => heading_names_user(heading, name),
    }
}

/// Whether it stands in a heading, at any depth.
#[cycle(named)]
pub fn heading_names_user(heading: &Heading, name: &Name) -> bool
    ensures { result ≡ any_names_user name.now (pack heading.now) }
{
    for attribute in &heading.attributes {
        if type_names_user(&attribute.ty, name) {
            return true;
        }
    }
    false
}

/// Whether it stands in the types of the components, at any depth.
pub fn components_name_user(components: &[(Name, Ty)], name: &Name) -> bool
    ensures { result ≡ any_names_user name.now (pack (pairs_view components.now)) }
{
    for (_, ty) in components {
        if type_names_user(ty, name) {
            return true;
        }
    }
    false
}
