//! User values.
ghost use Rattle.std.specs.Prelude.{◌≡◌, ◌↔◌, IsTrue};
ghost use Rattle.td_types.specs.code.Views.{pairs_view};
ghost use Rattle.td_value.specs.model.Values.{AreValues, HaveTypesOf, pack_parts, user_view};

use crate::value::Value;
use std::marker::Model;
use td_tree::name::Name;
use td_types::ty::Ty;

/// A user value: its type's name, with its components in declared order.
#[cycle(value)]
#[derive(Drop)]
pub struct User {
    pub(crate) name: Name,
    pub(crate) components: Vec<Value>,
}

impl Model for User {
    ghost use Rattle.td_value.specs.code.Depths.{user_depth};
    ghost use Rattle.td_value.specs.model.Values.{IsUserValue, UserValue};
    ghost use Rattle.td_value.specs.code.ValueCode.{user_value_code};

    ghost Value = { UserValue };

    ghost coded = { user_value_code };

    ghost use Rattle.td_value.specs.model.Values.{user_view};

    ghost view = { λ a. user_view a.name a.components.items };

    ghost invariant = { λ a. IsUserValue (user_view a.name a.components.items) };

    ghost size = { user_depth };

    ghost use Rattle.td_value.specs.code.Falls.{parts_fall};

    ghost size_decreases = { λ a h. parts_fall a.components.items };
}

impl User {
    ghost use Rattle.td_value.specs.model.Values.{IsUserValue};

    /// The user value of the type with that name.
    pub fn new(name: Name, components: Vec<Value>) -> User
        ensures { result ≡ user_view name components.items }
    {
        name.reveal();
        know_values(&components);
        User { name, components }
    }

    /// The name of its type.
    pub fn name(&self) -> &Name
        ensures { result.now ≡ self.now.name }
    {
        &self.name
    }

    /// The components in declared order.
    pub fn components(&self) -> &[Value]
        ensures components { result.now ≡ self.now.components }
        ensures valid { IsUserValue self.now }
    {
        &self.components
    }

    /// Whether it has as many components as those, each of the type of the one at its place.
    pub fn has_components(&self, components: &[(Name, Ty)]) -> bool
        ensures { IsTrue result ↔ HaveTypesOf self.now.components (pairs_view components.now) }
    {
        have_types(self.components(), components)
    }
}

/// Whether the values have, in number and order, the types of the components.
fn have_types(values: &[Value], components: &[(Name, Ty)]) -> bool
    ensures { IsTrue result ↔ HaveTypesOf values.now (pairs_view components.now) }
{
    if values.len() != components.len() {
        return false;
    }
    let mut place = 0;
    for value in values {
        if !value.has_type(&components[place].1) {
            return false;
        }
        place += 1;
    }
    true
}

/// Each of the values is a value at every depth.
pub fn know_values(values: &[Value])
    ensures { AreValues (pack_parts values.now) }
{
    for v in values {
        let _ = &v.node;
    }
}
