//! The script that makes a database anew. A call that wants memory leaves a front of its text at
//! the end of `out`.
ghost use Rattle.std.specs.Prelude.{◌≡◌, ◌++◌, IfOk, OnOk, codes, false, map, option_map};
ghost use Rattle.std.specs.List.{flat_map};
ghost use Rattle.std.specs.String.{string_bytes};
ghost use Rattle.td_catalog.specs.code.CatalogViews.{virtual_view};
ghost use Rattle.td_catalog.specs.model.Database.{base_relvar, named_constraint};
ghost use Rattle.td_catalog.specs.model.Dumps.{base_line, condition_text, constraint_line};
ghost use Rattle.td_catalog.specs.model.Dumps.{dump_text, key_text, keys_text, line_end};
ghost use Rattle.td_catalog.specs.model.Dumps.{names_text, type_line, virtual_line};
ghost use Rattle.td_tree.specs.model.Prints.{print};
ghost use Rattle.td_tree.specs.code.TreeViews.{tree_view};
ghost use Rattle.td_types.specs.model.Texts.{attributes_text, type_text};
ghost use Rattle.td_types.specs.model.TypeLists.{declared_type};
ghost use Rattle.td_types.specs.model.Types.{pack, relation};
ghost use Rattle.td_types.specs.code.Views.{pairs_view};
ghost use Rattle.td_value.specs.model.Literal.{relation_literal};

use crate::catalog::Catalog;
use crate::defining::DefiningExpression;
use crate::entry::VirtualEntry;
use crate::keys::ordered_key;
use std::alloc::AllocError;
use td_body::body::Body;
use td_tree::expression::Expr;
use td_tree::name::Name;
use td_tree::print::print_expr;
use td_types::heading::Heading;
use td_types::table::TypeEntry;
use td_types::text::{put_comma, put_relation_type, put_type};
use td_types::ty::Ty;
use td_value::relation::Rel;

/// Puts the word and the name behind it.
fn put_named(out: &mut String, word: &str, name: &Name) -> Result<(), AllocError>
    ensures { OnOk result
        (string_bytes out.new ≡ string_bytes out.old ++ word.now ++ name.now) }
{
    out.push_str(word)?;
    out.push_str(name.as_str())
}

/// Puts the names with a comma between two.
fn put_names(out: &mut String, names: &[Name]) -> Result<(), AllocError>
    ensures { OnOk result
        (string_bytes out.new ≡ string_bytes out.old ++ names_text false names.now) }
{
    let mut later = false;
    for name in names {
        put_comma(out, later)?;
        out.push_str(name.as_str())?;
        later = true;
    }
    Ok(())
}

/// Puts a key of these names.
fn put_key(out: &mut String, names: &[Name]) -> Result<(), AllocError>
    ensures { OnOk result (string_bytes out.new ≡ string_bytes out.old ++ key_text names.now) }
{
    out.push_str(" KEY {")?;
    put_names(out, names)?;
    out.push_str("}")
}

/// Puts the keys of a relvar of that heading, each with its names in name order.
fn put_keys(out: &mut String, heading: &Heading, keys: &[Vec<Name>]) -> Result<(), AllocError>
    ensures { OnOk result (string_bytes out.new ≡ string_bytes out.old
        ++ keys_text heading.now (map (λ key. key.items) keys.now)) }
{
    let alloc = *out.allocator();
    for key in keys {
        put_key(out, &ordered_key(alloc, heading, key)?)?;
    }
    Ok(())
}

fn put_line_end(out: &mut String) -> Result<(), AllocError>
    ensures { OnOk result (string_bytes out.new ≡ string_bytes out.old ++ line_end) }
{
    out.push_str(";\n")
}

fn put_expr(out: &mut String, expression: &Expr) -> Result<(), AllocError>
    ensures { OnOk result (string_bytes out.new
        ≡ string_bytes out.old ++ print (tree_view expression.now)) }
{
    let text = print_expr(*out.allocator(), expression)?;
    out.push_str(text.as_str())
}

/// Puts the components of a type with a comma between two.
fn put_components(out: &mut String, components: &[(Name, Ty)]) -> Result<(), AllocError>
    ensures { OnOk result (string_bytes out.new
        ≡ string_bytes out.old ++ attributes_text false (pack (pairs_view components.now))) }
{
    let mut later = false;
    for (name, ty) in components {
        put_comma(out, later)?;
        out.push_str(name.as_str())?;
        out.push_str(" ")?;
        put_type(out, ty)?;
        later = true;
    }
    Ok(())
}

/// Puts the constraint of a type, where it has one.
fn put_condition(out: &mut String, constraint: Option<&Expr>) -> Result<(), AllocError>
    ensures { OnOk result (string_bytes out.new ≡ string_bytes out.old
        ++ condition_text (option_map (λ e. tree_view e.now) constraint.entry)) }
{
    if let Some(expression) = constraint {
        out.push_str(" CONSTRAINT ")?;
        put_expr(out, expression)?;
    }
    Ok(())
}

/// Puts the line of a type of that name.
fn put_declared(out: &mut String, name: &Name, entry: &TypeEntry) -> Result<(), AllocError>
    ensures { OnOk result (string_bytes out.new ≡ string_bytes out.old
        ++ type_line (declared_type name.now entry.now.components entry.now.constraint)) }
{
    put_named(out, "TYPE ", name)?;
    out.push_str(" POSSREP {")?;
    put_components(out, entry.components())?;
    put_condition(out, entry.constraint())?;
    out.push_str("}")?;
    put_line_end(out)
}

/// Puts the relation that a base relvar begins with.
fn put_init(out: &mut String, held: &Rel) -> Result<(), AllocError>
    ensures { OnOk result (string_bytes out.new ≡ string_bytes out.old
        ++ codes " INIT (" ++ relation_literal held.now ++ codes ")") }
{
    let text = held.literal()?;
    out.push_str(" INIT (")?;
    out.push_str(text.as_str())?;
    out.push_str(")")
}

/// Puts the line of a base relvar of that name and of those keys, that holds the relation.
fn put_base(out: &mut String, name: &Name, keys: &[Vec<Name>], held: &Rel) -> Result<(), AllocError>
    ensures { OnOk result (string_bytes out.new ≡ string_bytes out.old
        ++ base_line (base_relvar name.now (map (λ key. key.items) keys.now) held.now)) }
{
    put_named(out, "VAR ", name)?;
    out.push_str(" BASE ")?;
    put_relation_type(out, held.heading())?;
    put_init(out, held)?;
    put_keys(out, held.heading(), keys)?;
    put_line_end(out)
}

/// Puts the line of a virtual relvar of that name.
fn put_virtual(out: &mut String, name: &Name, entry: &VirtualEntry) -> Result<(), AllocError>
    ensures { OnOk result (string_bytes out.new ≡ string_bytes out.old
        ++ virtual_line (virtual_view (name.now, entry.now))) }
{
    put_named(out, "VAR ", name)?;
    out.push_str(" VIRTUAL (")?;
    put_expr(out, entry.tree.tree())?;
    out.push_str(")")?;
    put_keys(out, &entry.heading, &entry.keys)?;
    put_line_end(out)
}

/// Puts the line of a constraint of that name.
fn put_constraint(
    out: &mut String,
    name: &Name,
    condition: &DefiningExpression,
) -> Result<(), AllocError>
    ensures { OnOk result (string_bytes out.new ≡ string_bytes out.old
        ++ constraint_line (named_constraint name.now condition.now)) }
{
    put_named(out, "CONSTRAINT ", name)?;
    out.push_str(" ")?;
    put_expr(out, condition.tree())?;
    put_line_end(out)
}

impl<B: Body> Catalog<B> {
    fn put_types(&self, out: &mut String) -> Result<(), AllocError>
        ensures { OnOk result (string_bytes out.new
            ≡ string_bytes out.old ++ flat_map type_line self.now.database.types) }
    {
        for place in 0..self.tables.types.len() {
            let (Some(name), Some(entry)) = (
                self.tables.types.at(place),
                self.tables.types.entry_at(place),
            ) else {
                return Ok(());
            };
            put_declared(out, name, entry)?;
        }
        Ok(())
    }

    fn put_bases(&self, out: &mut String) -> Result<(), AllocError>
        ensures { OnOk result (string_bytes out.new
            ≡ string_bytes out.old ++ flat_map base_line self.now.database.bases) }
    {
        for place in 0..self.base_count() {
            let Some((name, entry)) = self.nth_base(place) else {
                return Ok(());
            };
            put_base(out, name, &entry.keys, &entry.body.to_rel()?)?;
        }
        Ok(())
    }

    fn put_virtuals(&self, out: &mut String) -> Result<(), AllocError>
        ensures { OnOk result (string_bytes out.new
            ≡ string_bytes out.old ++ flat_map virtual_line self.now.database.virtuals) }
    {
        for place in 0..self.virtual_count() {
            let Some((name, entry)) = self.nth_virtual(place) else {
                return Ok(());
            };
            put_virtual(out, name, entry)?;
        }
        Ok(())
    }

    fn put_constraints(&self, out: &mut String) -> Result<(), AllocError>
        ensures { OnOk result (string_bytes out.new
            ≡ string_bytes out.old ++ flat_map constraint_line self.now.database.constraints) }
    {
        for place in 0..self.constraint_count() {
            let Some((name, condition)) = self.nth_constraint(place) else {
                return Ok(());
            };
            put_constraint(out, name, condition)?;
        }
        Ok(())
    }

    /// The script that makes the database anew, a statement on each line: the types, the base
    /// relvars, the virtual relvars and the constraints, each in order of definition.
    pub fn dump_text(&self) -> Result<String, AllocError>
        ensures { IfOk result (λ text. string_bytes text ≡ dump_text self.now.database) }
    {
        let mut out = String::new(*self.tables.bases.allocator());
        self.put_types(&mut out)?;
        self.put_bases(&mut out)?;
        self.put_virtuals(&mut out)?;
        self.put_constraints(&mut out)?;
        Ok(out)
    }
}
