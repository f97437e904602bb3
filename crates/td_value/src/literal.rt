//! The literals of values.
ghost use Rattle.std.specs.Prelude.{◌≡◌, ◌++◌, IfOk, OnOk, codes, false, length};
ghost use Rattle.std.specs.Fmt.{signed_decimal};
ghost use Rattle.std.specs.String.{string_bytes};
ghost use Rattle.td_types.specs.model.Texts.{comma_if, type_text};
ghost use Rattle.td_types.specs.model.Types.{pack};
ghost use Rattle.td_types.specs.model.Types as types;
ghost use Rattle.td_value.specs.model.Literal.{fields_literal, literal, relation_literal};
ghost use Rattle.td_value.specs.model.Literal.{rows_literal, tuple_literal};
ghost use Rattle.td_value.specs.model.Values.{pack_fields, pack_rows, selected_value};
ghost use Rattle.td_value.specs.code.Views.{tuple_view};

use crate::relation::Rel;
use crate::tuple::Tuple;
use crate::user::User;
use crate::value::{Node, Value};
use std::alloc::{AllocError, Global};
use td_tree::name::Name;
use td_tree::quoted::put_quoted;
use td_types::heading::Heading;
use td_types::text::{put_comma, put_relation_type};

fn put_number(out: &mut String, n: i64) -> Result<(), AllocError>
    ensures { OnOk result (string_bytes out.new ≡ string_bytes out.old ++ signed_decimal n) }
{
    let mut buffer = itoa::Buffer::new();
    out.push_str(buffer.format(n))
}

/// Puts the name of a user value's type, and opens its components.
fn put_selector(out: &mut String, name: &Name) -> Result<(), AllocError>
    ensures { OnOk result (string_bytes out.new ≡ string_bytes out.old ++ name.now ++ codes "(") }
{
    out.push_str(name.as_str())?;
    out.push_str("(")
}

/// Puts the name of an attribute before its value.
fn put_field_name(out: &mut String, later: bool, name: &Name) -> Result<(), AllocError>
    ensures { OnOk result (string_bytes out.new
        ≡ string_bytes out.old ++ comma_if later ++ name.now ++ codes " ") }
{
    put_comma(out, later)?;
    out.push_str(name.as_str())?;
    out.push(' ')
}

/// Puts the type of a relation, and opens its tuples.
fn put_selected_type(out: &mut String, heading: &Heading) -> Result<(), AllocError>
    ensures { OnOk result (string_bytes out.new
        ≡ string_bytes out.old ++ type_text (types.relation (pack heading.now)) ++ codes " {") }
{
    put_relation_type(out, heading)?;
    out.push_str(" {")
}

#[cycle(write)]
fn write_value(v: &Value, out: &mut String) -> Result<(), AllocError>
    ensures { OnOk result (string_bytes out.new ≡ string_bytes out.old ++ literal v.now) }
{
    match &v.node {
        Node::Bool(true) => out.push_str("TRUE"),
        Node::Bool(false) => out.push_str("FALSE"),
        Node::Int(n) => put_number(out, *n),
        Node::Text(s) => put_quoted(out, s.as_str()),
        Node::User(u) => write_user(u, out),
        Node::Tup(t) => write_tuple(t, out),
        Node::Rel(r) => write_relation(r, out),
    }
}

#[cycle(write)]
fn write_user(u: &User, out: &mut String) -> Result<(), AllocError>
    ensures { OnOk result (string_bytes out.new
        ≡ string_bytes out.old ++ literal (selected_value u.now)) }
{
    put_selector(out, &u.name)?;
    let mut later = false;
    for v in &u.components {
        put_comma(out, later)?;
        write_value(v, out)?;
        later = true;
    }
    out.push_str(")")
}

#[cycle(write)]
fn write_tuple(t: &Tuple, out: &mut String) -> Result<(), AllocError>
    ensures { OnOk result (string_bytes out.new ≡ string_bytes out.old ++ tuple_literal t.now) }
{
    out.push_str("TUPLE {")?;
    write_entries(t.names(), t.values(), out)
}

/// Puts the entries, and closes them.
#[cycle(write)]
fn write_entries(names: &[Name], values: &[Value], out: &mut String) -> Result<(), AllocError>
    requires { length names.now ≡ length values.now }
    ensures { OnOk result (string_bytes out.new ≡ string_bytes out.old
        ++ fields_literal false (pack_fields (tuple_view names.now values.now)) ++ codes "}") }
{
    let mut place = 0;
    let mut later = false;
    for v in values {
        put_field_name(out, later, &names[place])?;
        write_value(v, out)?;
        later = true;
        place += 1;
    }
    out.push('}')
}

#[cycle(write)]
fn write_relation(r: &Rel, out: &mut String) -> Result<(), AllocError>
    ensures { OnOk result (string_bytes out.new ≡ string_bytes out.old ++ relation_literal r.now) }
{
    put_selected_type(out, &r.heading)?;
    write_rows(&r.rows, out)
}

/// Puts the tuples, and closes them.
#[cycle(write)]
fn write_rows(rows: &[Tuple], out: &mut String) -> Result<(), AllocError>
    ensures { OnOk result (string_bytes out.new
        ≡ string_bytes out.old ++ rows_literal false (pack_rows rows.now) ++ codes "}") }
{
    let mut later = false;
    for t in rows {
        put_comma(out, later)?;
        write_tuple(t, out)?;
        later = true;
    }
    out.push_str("}")
}

impl Value {
    /// The literal.
    pub fn literal(&self, alloc: Global) -> Result<String, AllocError>
        ensures { IfOk result (λ s. string_bytes s ≡ literal self.now) }
    {
        let mut out = String::new(alloc);
        write_value(self, &mut out)?;
        Ok(out)
    }
}

impl Tuple {
    /// The literal.
    pub fn literal(&self) -> Result<String, AllocError>
        ensures { IfOk result (λ s. string_bytes s ≡ tuple_literal self.now) }
    {
        let mut out = String::new(*self.block.cells.allocator());
        write_tuple(self, &mut out)?;
        Ok(out)
    }
}

impl Rel {
    /// The literal.
    pub fn literal(&self) -> Result<String, AllocError>
        ensures { IfOk result (λ s. string_bytes s ≡ relation_literal self.now) }
    {
        let mut out = String::new(*self.rows.allocator());
        write_relation(self, &mut out)?;
        Ok(out)
    }
}
