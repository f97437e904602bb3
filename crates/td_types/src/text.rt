//! The text of a type.
ghost use Rattle.std.specs.Prelude.{◌≡◌, ◌++◌, IfOk, OnErr, OnOk};
ghost use Rattle.std.specs.String.{string_bytes};
ghost use Rattle.td_tree.specs.code.Fronts.{PutsFront};
ghost use Rattle.td_types.specs.model.Texts.{comma_if, heading_text, type_text};
ghost use Rattle.td_types.specs.model.Types.{pack, relation};
ghost use Rattle.td_types.specs.code.Views.{type_view};

use crate::heading::Heading;
use crate::ty::Ty;
use std::alloc::{AllocError, Global};

/// Puts what stands before a part: a comma and a space, where it is a later one.
pub fn put_comma(out: &mut String, later: bool) -> Result<(), AllocError>
    ensures ok { OnOk result (string_bytes out.new ≡ string_bytes out.old ++ comma_if later) }
    ensures err { OnErr result (string_bytes out.new ≡ string_bytes out.old) }
{
    if later {
        out.push_str(", ")?;
    }
    Ok(())
}

/// Puts the type's text at the end of `out`.
#[cycle(put)]
pub fn put_type(out: &mut String, ty: &Ty) -> Result<(), AllocError>
    ensures ok { OnOk result (string_bytes out.new
        ≡ string_bytes out.old ++ type_text (type_view ty.now)) }
    ensures err { OnErr result
        (PutsFront (string_bytes out.old) (string_bytes out.new) (type_text (type_view ty.now))) }
{
    match ty {
        Ty::Bool => out.push_str("BOOLEAN"),
        Ty::Int => out.push_str("INTEGER"),
        Ty::Text => out.push_str("CHAR"),
        Ty::User(name) => out.push_str(name.as_str()),
        Ty::Tup(heading) => {
            out.push_str("TUPLE ")?;
            put_heading(out, heading)
        }
        Ty::Rel(heading) => put_relation_type(out, heading),
    }
}

/// Puts the text of the heading's relation type at the end of `out`.
#[cycle(put)]
pub fn put_relation_type(out: &mut String, heading: &Heading) -> Result<(), AllocError>
    ensures ok { OnOk result (string_bytes out.new
        ≡ string_bytes out.old ++ type_text (relation (pack heading.now))) }
    ensures err { OnErr result
        (PutsFront (string_bytes out.old) (string_bytes out.new) (type_text (relation (pack
        heading.now)))) }
{
    out.push_str("RELATION ")?;
    put_heading(out, heading)
}

/// Puts the attributes between braces.
#[cycle(put)]
fn put_heading(out: &mut String, heading: &Heading) -> Result<(), AllocError>
    ensures ok { OnOk result (string_bytes out.new
        ≡ string_bytes out.old ++ heading_text (pack heading.now)) }
    ensures err { OnErr result
        (PutsFront (string_bytes out.old) (string_bytes out.new) (heading_text (pack heading.now))) }
{
    out.push_str("{")?;
    let mut later = false;
    for attribute in &heading.attributes {
        put_comma(out, later)?;
        out.push_str(attribute.name.as_str())?;
        out.push_str(" ")?;
        put_type(out, &attribute.ty)?;
        later = true;
    }
    out.push_str("}")
}

/// The type's text.
pub fn type_text(alloc: Global, ty: &Ty) -> Result<String, AllocError>
    ensures { IfOk result (λ text. string_bytes text ≡ type_text (type_view ty.now)) }
{
    let mut out = String::new(alloc);
    put_type(&mut out, ty)?;
    Ok(out)
}
