//! The hashes of types and headings.
ghost use Rattle.std.specs.Prelude.{◌≡◌, ◌++◌, fold};
ghost use Rattle.td_types.specs.code.Hashes.{fed_heading, fed_type};
ghost use Rattle.td_types.specs.model.Types.{pack};
ghost use Rattle.td_types.specs.code.Views.{type_view};

use crate::heading::Heading;
use crate::ty::Ty;
use std::hash::{Hash, Hasher};

#[cycle(feed)]
fn feed_type<H: Hasher>(ty: &Ty, state: &mut H)
    ensures { state.new ≡ fold H.write state.old (fed_type (type_view ty.now)) }
{
    state.write_u8(ty.kind_number());
    match ty {
        Ty::Bool | Ty::Int | Ty::Text => {}
        Ty::User(name) => name.as_str().hash(state),
        Ty::Tup(heading) | Ty::Rel(heading) => feed_heading(heading, state),
    }
}

#[cycle(feed)]
fn feed_heading<H: Hasher>(heading: &Heading, state: &mut H)
    ensures { state.new ≡ fold H.write state.old (fed_heading (pack heading.now)) }
{
    for attribute in &heading.attributes {
        attribute.name.as_str().hash(state);
        feed_type(&attribute.ty, state);
    }
    state.write_u8(6);
}

impl Hash for Ty {
    ghost use Rattle.td_types.specs.code.Hashes.{fed_type, types_fed_alike};
    ghost use Rattle.td_types.specs.code.Views.{type_view};

    ghost hash_input = { λ t. fed_type (type_view t) };

    ghost respects_eq = { types_fed_alike };

    fn hash<H: Hasher>(&self, state: &mut H) {
        feed_type(self, state);
    }
}

impl Hash for Heading {
    ghost use Rattle.td_types.specs.code.Hashes.{fed_heading, headings_fed_alike};
    ghost use Rattle.td_types.specs.model.Types.{pack};

    ghost hash_input = { λ h. fed_heading (pack h) };

    ghost respects_eq = { headings_fed_alike };

    fn hash<H: Hasher>(&self, state: &mut H) {
        feed_heading(self, state);
    }
}
