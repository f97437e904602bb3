//! Types.
ghost use Rattle.td_types.specs.model.Types.{IsType};
ghost use Rattle.td_types.specs.code.Views.{type_view};

use crate::heading::Heading;
use td_tree::name::Name;

/// A type.
#[cycle(ty)]
#[derive(Drop)]
pub enum Ty {
    /// The truth values.
    Bool,
    /// The whole numbers of 64 bits.
    Int,
    /// The texts.
    Text,
    /// A user type, by its name.
    User(Name),
    /// The tuples of a heading.
    Tup(Heading),
    /// The relations of a heading.
    Rel(Heading),
}

impl Ty {
    /// What holds of every type. It takes no time.
    pub fn reveal(&self)
        ensures { IsType (type_view self.now) }
    {
        match self {
            Ty::User(name) => {
                name.reveal();
            }
            Ty::Tup(heading) | Ty::Rel(heading) => {
                let _ = &heading.attributes;
            }
            Ty::Bool | Ty::Int | Ty::Text => {}
        }
    }
}
