//! Copies of types and headings.
ghost use Rattle.std.specs.Prelude.{◌≡◌, IfOk};
ghost use Rattle.td_types.specs.code.Views.{attribute_view, type_view};

use crate::heading::{Attribute, Heading};
use crate::ty::Ty;
use std::alloc::AllocError;

#[cycle(copy)]
fn copy_type(ty: &Ty) -> Result<Ty, AllocError>
    ensures { IfOk result (λ copy. type_view copy ≡ type_view ty.now) }
{
    match ty {
        Ty::Bool => Ok(Ty::Bool),
        Ty::Int => Ok(Ty::Int),
        Ty::Text => Ok(Ty::Text),
        Ty::User(name) => Ok(Ty::User(name.try_clone()?)),
        Ty::Tup(heading) => Ok(Ty::Tup(copy_heading(heading)?)),
        Ty::Rel(heading) => Ok(Ty::Rel(copy_heading(heading)?)),
    }
}

#[cycle(copy)]
fn copy_heading(heading: &Heading) -> Result<Heading, AllocError>
    ensures { IfOk result (λ copy. copy ≡ heading.now) }
{
    let mut attributes = Vec::with_capacity(
        *heading.attributes.allocator(),
        heading.attributes.len(),
    )?;
    for attribute in &heading.attributes {
        let name = attribute.name.try_clone()?;
        let ty = copy_type(&attribute.ty)?;
        attributes.push(Attribute { name, ty })?;
    }
    Ok(Heading { attributes })
}

impl Ty {
    /// A copy of the type.
    pub fn try_clone(&self) -> Result<Ty, AllocError>
        ensures { IfOk result (λ copy. type_view copy ≡ type_view self.now) }
    {
        copy_type(self)
    }
}

impl Attribute {
    /// A copy of the attribute.
    pub(crate) fn try_clone(&self) -> Result<Attribute, AllocError>
        ensures { IfOk result (λ copy. attribute_view copy ≡ attribute_view self.now) }
    {
        let name = self.name.try_clone()?;
        let ty = self.ty.try_clone()?;
        Ok(Attribute { name, ty })
    }
}

impl Heading {
    /// A copy of the heading.
    pub fn try_clone(&self) -> Result<Heading, AllocError>
        ensures { IfOk result (λ copy. copy ≡ self.now) }
    {
        copy_heading(self)
    }
}
