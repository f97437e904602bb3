//! The types of values.
ghost use Rattle.std.specs.Prelude.{◌≡◌, ◌↔◌, IfOk, IsOk, IsTrue, OnOk, false, length};
ghost use Rattle.std.specs.Ordering.{eq_by_cmp, is_eq};
ghost use Rattle.td_types.specs.model.Headings.{has_attribute, with_attribute};
ghost use Rattle.td_types.specs.model.Types.{attrs_cmp, heading_cmp, pack, type_cmp};
ghost use Rattle.td_types.specs.model.Types as types;
ghost use Rattle.td_types.specs.code.Views as heads;
ghost use Rattle.td_value.specs.model.Values.{IsTuple, IsTupleOf, fields_type, heading_of};
ghost use Rattle.td_value.specs.model.Values.{pack_fields, type_of};
ghost use Rattle.td_value.specs.code.Views.{tuple_view};
ghost use Rattle.td_value.specs.code.Zipped.{entries_fit};

use crate::relation::Rel;
use crate::tuple::Tuple;
use crate::user::User;
use crate::value::{Node, Value};
use std::alloc::{AllocError, Global};
use td_tree::name::Name;
use td_types::heading::Heading;
use td_types::ty::Ty;

#[cycle(fit)]
fn has_type(v: &Value, ty: &Ty) -> bool
    ensures { result ≡ eq_by_cmp type_cmp (type_of v.now) (heads.type_view ty.now) }
{
    match (&v.node, ty) {
        (Node::Bool(_), Ty::Bool) => true,
        (Node::Int(_), Ty::Int) => true,
        (Node::Text(_), Ty::Text) => true,
        (Node::User(u), Ty::User(name)) => u.name() == name,
        (Node::Tup(t), Ty::Tup(heading)) => tuple_has_heading(t, heading),
        (Node::Rel(r), Ty::Rel(heading)) => r.heading() == heading,
        _ => false,
    }
}

#[cycle(fit)]
fn tuple_has_heading(t: &Tuple, heading: &Heading) -> bool
    ensures { result ≡ is_eq (attrs_cmp (fields_type (pack_fields t.now)) (pack heading.now)) }
{
    entries_have_heading(t.names(), t.values(), heading)
}

#[cycle(fit)]
fn entries_have_heading(names: &[Name], values: &[Value], heading: &Heading) -> bool
    requires { length names.now ≡ length values.now }
    ensures { result ≡ entries_fit names.now values.now heading.now }
{
    let mut place = 0;
    for v in values {
        let Some((name, ty)) = heading.at(place) else {
            return false;
        };
        if names[place] != *name {
            return false;
        }
        if !has_type(v, ty) {
            return false;
        }
        place += 1;
    }
    heading.at(place).is_none()
}

/// The heading with one more attribute, of a name that it lacks, if the type was found.
fn add_attribute(
    heading: Heading,
    name: &Name,
    ty: Result<Ty, AllocError>,
) -> Result<Heading, AllocError>
    requires { has_attribute name.now heading ≡ false }
    ensures found { OnOk result (IsOk ty) }
    ensures more { IfOk result (λ h. IfOk ty (λ t.
        h ≡ with_attribute heading (name.now, heads.type_view t))) }
{
    let ty = ty?;
    heading.add(name.try_clone()?, ty)
}

/// The type of the user value.
fn user_type(u: &User) -> Result<Ty, AllocError>
    ensures { IfOk result (λ t. heads.type_view t ≡ types.user u.now.name) }
{
    Ok(Ty::User(u.name.try_clone()?))
}

#[cycle(find)]
fn find_type(alloc: Global, v: &Value) -> Result<Ty, AllocError>
    ensures { IfOk result (λ t. heads.type_view t ≡ type_of v.now) }
{
    match &v.node {
        Node::Bool(_) => Ok(Ty::Bool),
        Node::Int(_) => Ok(Ty::Int),
        Node::Text(_) => Ok(Ty::Text),
        Node::User(u) => user_type(u),
        Node::Tup(t) => Ok(Ty::Tup(find_heading(alloc, t)?)),
        Node::Rel(r) => r.type_of(),
    }
}

#[cycle(find)]
fn find_heading(alloc: Global, t: &Tuple) -> Result<Heading, AllocError>
    ensures { IfOk result (λ h. h ≡ heading_of t.now) }
{
    entries_heading(alloc, t.names(), t.values())
}

#[cycle(find)]
fn entries_heading(alloc: Global, names: &[Name], values: &[Value]) -> Result<Heading, AllocError>
    requires same { length names.now ≡ length values.now }
    requires valid { IsTuple (tuple_view names.now values.now) }
    ensures { IfOk result (λ h. h ≡ heading_of (tuple_view names.now values.now)) }
{
    let mut heading = Heading::empty(alloc);
    let mut place = 0;
    for v in values {
        heading = add_attribute(heading, &names[place], find_type(alloc, v))?;
        place += 1;
    }
    Ok(heading)
}

impl Value {
    /// Whether the value is of the type.
    pub fn has_type(&self, ty: &Ty) -> bool
        ensures { IsTrue result ↔ (type_of self.now ≡ heads.type_view ty.now) }
    {
        has_type(self, ty)
    }

    /// The type.
    pub fn type_of(&self, alloc: Global) -> Result<Ty, AllocError>
        ensures { IfOk result (λ t. heads.type_view t ≡ type_of self.now) }
    {
        find_type(alloc, self)
    }
}

impl Tuple {
    /// Whether the tuple is of the heading.
    pub fn has_heading(&self, heading: &Heading) -> bool
        ensures fits { IsTrue result ↔ IsTupleOf heading.now self.now }
        ensures test { result ≡ eq_by_cmp heading_cmp (heading_of self.now) heading.now }
    {
        self.reveal();
        tuple_has_heading(self, heading)
    }

    /// The heading: each name with the type of its value.
    pub fn heading(&self) -> Result<Heading, AllocError>
        ensures { IfOk result (λ h. h ≡ heading_of self.now) }
    {
        find_heading(*self.block.cells.allocator(), self)
    }

    /// The tuple type of the heading.
    pub fn type_of(&self) -> Result<Ty, AllocError>
        ensures { IfOk result (λ t. heads.type_view t ≡ types.tuple (pack (heading_of self.now))) }
    {
        Ok(Ty::Tup(self.heading()?))
    }
}

impl Rel {
    /// The relation type of the heading.
    pub fn type_of(&self) -> Result<Ty, AllocError>
        ensures { IfOk result (λ t. heads.type_view t ≡ types.relation (pack self.now.heading)) }
    {
        Ok(Ty::Rel(self.heading.try_clone()?))
    }
}
