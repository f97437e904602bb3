//! What is added to a catalogue, with what each call asks.
ghost use Rattle.std.specs.Prelude.{◌≡◌, ◌∷◌, IfOk, IsTrue, Some, [], map};
ghost use Rattle.std.specs.List.{All};
ghost use Rattle.td_catalog.specs.model.Database.{database_scope};
ghost use Rattle.td_check.specs.model.Scopes.{entered_with, scope_of};
ghost use Rattle.td_check.specs.model.StaticTypes.{type_of};
ghost use Rattle.td_check.specs.model.StatementTypes.{constraint_fits};
ghost use Rattle.td_tree.specs.model.Outcomes.{Valued};
ghost use Rattle.td_tree.specs.code.TreeViews.{tree_view};
ghost use Rattle.td_types.specs.model.Headings.{has_attributes, has_projection};
ghost use Rattle.td_types.specs.model.TypeLists.{AreKnown};
ghost use Rattle.td_types.specs.model.Types.{boolean, integer, pack, relation};
ghost use Rattle.td_types.specs.code.Views.{type_view};
ghost use Rattle.td_value.specs.model.Values.{relation_view};

use super::super::given::{both, kept, list_of, made};
use super::super::texts::{expression, name, names};
use std::alloc::Global;
use td_body::body::Body;
use td_body::sorted::SortedBody;
use td_catalog::catalog::Catalog;
use td_catalog::copy::copied_keys;
use td_check::expression::check_expr;
use td_check::scope::Scope;
use td_tree::cause::Cause;
use td_tree::expression::Expr;
use td_tree::fault::Fault;
use td_tree::name::Name;
use td_types::heading::Heading;
use td_types::table::TypeTable;
use td_types::ty::Ty;

/// A list of a catalogue.
#[derive(Clone, Copy)]
pub enum Kind {
    Type,
    Base,
    Virtual,
    Constraint,
}

// ---- types

/// The heading of one number.
fn of_number(alloc: Global, number: &Name) -> Result<Heading, Fault>
    ensures { IfOk result (λ h. h ≡ (number.now, integer) ∷ []) }
{
    let number = number.try_clone()?;
    Heading::empty(alloc).with(number, Ty::Int)
}

/// The scope of the declared types in a tuple of one number.
fn in_number<'a>(alloc: Global, types: &'a TypeTable, number: &Name) -> Result<Scope<'a>, Fault>
    ensures { IfOk result (λ s.
        s ≡ entered_with ((number.now, integer) ∷ []) (scope_of types.now)) }
{
    let heading = of_number(alloc, number)?;
    let mut scope = Scope::new(alloc, types);
    let entered = scope.enter(heading);
    let (scope, _) = both(Ok(scope), entered)?;
    Ok(scope)
}

/// Whether the expression is BOOLEAN in the scope.
fn is_boolean(scope: &Scope<'_>, tree: &Expr) -> Result<bool, Fault>
    ensures { IfOk result (λ b. IsTrue b
        → type_of scope.now (tree_view tree.now) ≡ Valued boolean) }
{
    let ty = check_expr(scope, tree)?;
    let is_boolean = matches!(&ty, Ty::Bool);
    drop(ty);
    Ok(is_boolean)
}

/// Whether the condition is BOOLEAN where a number of that name and the declared types alone are
/// known.
fn is_condition(
    alloc: Global,
    types: &TypeTable,
    number: &Name,
    condition: &Expr,
) -> Result<bool, Fault>
    ensures { IfOk result (λ b. IsTrue b → constraint_fits (scope_of types.now)
        ((number.now, integer) ∷ []) (Some (tree_view condition.now)) ≡ Valued tt) }
{
    let scope = in_number(alloc, types, number)?;
    let is_condition = is_boolean(&scope, condition);
    drop(scope);
    is_condition
}

/// Adds the type of that name, of one number that meets the condition.
fn add_type(
    catalog: &mut Catalog<SortedBody>,
    alloc: Global,
    name: Name,
    number: Name,
    condition: Expr,
) -> Result<(), Fault> {
    let fits = is_condition(alloc, catalog.types(), &number, &condition);
    let ((name, number), condition) = kept(((name, number), condition), fits)?;
    let components = list_of(alloc, (number, Ty::Int));
    let (components, (name, condition)) = both(components, Ok((name, condition)))?;
    catalog.add_type(name, components, Some(condition))
}

/// Adds the type QTY.
fn add_quantity(catalog: &mut Catalog<SortedBody>, alloc: Global) -> Result<(), Fault> {
    let names = both(name(alloc, "QTY"), name(alloc, "Q"));
    let ((name, number), condition) = both(names, expression(alloc, "Q >= 0"))?;
    add_type(catalog, alloc, name, number, condition)
}

// ---- base relvars

/// Whether the user types in the heading are declared.
fn is_known(types: &TypeTable, heading: &Heading) -> Result<bool, Fault>
    ensures { IfOk result (λ b. IsTrue b → AreKnown types.now (pack heading.now)) }
{
    let ty = Ty::Rel(heading.try_clone()?);
    let is_known = types.knows(&ty);
    drop(ty);
    Ok(is_known)
}

/// Whether the types in the heading are known, and the names of the key are among its attributes.
fn has_key(types: &TypeTable, heading: &Heading, key: &[Name]) -> Result<bool, Fault>
    ensures known { IfOk result (λ b. IsTrue b → AreKnown types.now (pack heading.now)) }
    ensures key { IfOk result (λ b. IsTrue b → IsTrue (has_projection key.now heading.now)) }
{
    Ok(is_known(types, heading)? && heading.has_projection(key))
}

/// The body of that heading and those keys without tuples.
fn empty_body(alloc: Global, heading: &Heading, keys: &Vec<Vec<Name>>) -> Result<SortedBody, Fault>
    requires { All (λ key. IsTrue (has_attributes key heading.now))
        (map (λ key. key.items) keys.now.items) }
    ensures relation { IfOk result (λ b.
        ⟦<SortedBody as Body>⟧.relation b ≡ relation_view heading.now []) }
    ensures keys { IfOk result (λ b.
        ⟦<SortedBody as Body>⟧.keys b ≡ map (λ key. key.items) keys.now.items) }
    ensures kept { IfOk result (λ b. ⟦<SortedBody as Body>⟧.kept b ≡ []) }
{
    let (heading, keys) = both(heading.try_clone(), copied_keys(keys))?;
    made(SortedBody::empty(alloc, heading, keys))
}

/// Adds the base relvar of that name and heading, with one key and without tuples.
fn add_base(
    catalog: &mut Catalog<SortedBody>,
    alloc: Global,
    name: Name,
    heading: Heading,
    key: Vec<Name>,
) -> Result<(), Fault> {
    let fits = has_key(catalog.types(), &heading, &key);
    let ((name, heading), key) = kept(((name, heading), key), fits)?;
    let keys = list_of(alloc, key)?;
    let body = empty_body(alloc, &heading, &keys)?;
    catalog.add_base(name, heading, keys, body)
}

/// The heading of a number Q of the type QTY and a text N.
fn of_quantity(alloc: Global) -> Result<Heading, Fault> {
    let quantity = both(name(alloc, "Q"), name(alloc, "QTY"));
    let ((q, quantity), n) = both(quantity, name(alloc, "N"))?;
    let heading = Heading::empty(alloc).with(q, Ty::User(quantity));
    let (heading, n) = both(heading, Ok(n))?;
    heading.with(n, Ty::Text)
}

/// Adds the base relvar P.
fn add_p(catalog: &mut Catalog<SortedBody>, alloc: Global) -> Result<(), Fault> {
    let names = both(name(alloc, "P"), names(alloc, &["N"]));
    let ((name, key), heading) = both(names, of_quantity(alloc))?;
    add_base(catalog, alloc, name, heading, key)
}

// ---- virtual relvars and constraints

/// The type of the expression in the catalogue's scope.
fn type_in(catalog: &Catalog<SortedBody>, tree: &Expr) -> Result<Ty, Fault>
    ensures { IfOk result (λ ty. type_of (database_scope catalog.now.database) (tree_view tree.now)
        ≡ Valued (type_view ty)) }
{
    let scope = catalog.scope();
    let ty = check_expr(&scope, tree);
    drop(scope);
    ty
}

/// A copy of the heading of the relation type.
fn heading_of(ty: &Ty) -> Result<Heading, Fault>
    ensures { IfOk result (λ h. type_view ty.now ≡ relation (pack h)) }
{
    match ty {
        Ty::Rel(heading) => made(heading.try_clone()),
        _ => Err(Fault::Refused(Cause::TypeMismatch)),
    }
}

/// The heading of the expression, which is to be a relation.
fn heading_in(catalog: &Catalog<SortedBody>, tree: &Expr) -> Result<Heading, Fault>
    ensures { IfOk result (λ h. type_of (database_scope catalog.now.database) (tree_view tree.now)
        ≡ Valued (relation (pack h))) }
{
    let ty = type_in(catalog, tree)?;
    let heading = heading_of(&ty);
    drop(ty);
    heading
}

/// Adds the virtual relvar of that name and expression, without keys.
fn add_virtual(
    catalog: &mut Catalog<SortedBody>,
    alloc: Global,
    name: Name,
    tree: Expr,
) -> Result<(), Fault> {
    let heading = heading_in(catalog, &tree);
    let (heading, (name, tree)) = both(heading, Ok((name, tree)))?;
    let fits = is_known(catalog.types(), &heading);
    let ((name, tree), heading) = kept(((name, tree), heading), fits)?;
    catalog.add_virtual(name, heading, tree, Vec::new(alloc))
}

/// Adds the virtual relvar V of P.
fn add_v(catalog: &mut Catalog<SortedBody>, alloc: Global) -> Result<(), Fault> {
    let (name, tree) = both(name(alloc, "V"), expression(alloc, "P {N}"))?;
    add_virtual(catalog, alloc, name, tree)
}

/// Whether the expression is BOOLEAN in the catalogue's scope.
fn is_boolean_in(catalog: &Catalog<SortedBody>, tree: &Expr) -> Result<bool, Fault>
    ensures { IfOk result (λ b. IsTrue b
        → type_of (database_scope catalog.now.database) (tree_view tree.now) ≡ Valued boolean) }
{
    let scope = catalog.scope();
    let is_boolean = is_boolean(&scope, tree);
    drop(scope);
    is_boolean
}

/// Adds the constraint of that name and expression.
fn add_constraint(catalog: &mut Catalog<SortedBody>, name: Name, tree: Expr) -> Result<(), Fault> {
    let fits = is_boolean_in(catalog, &tree);
    let (name, tree) = kept((name, tree), fits)?;
    catalog.add_constraint(name, tree)
}

/// Adds the constraint C on P.
fn add_c(catalog: &mut Catalog<SortedBody>, alloc: Global) -> Result<(), Fault> {
    let (name, tree) = both(name(alloc, "C"), expression(alloc, "COUNT(P) < 10"))?;
    add_constraint(catalog, name, tree)
}

/// Adds the type QTY, the base relvar P, the virtual relvar V of it, or the constraint C on it.
pub fn add(catalog: &mut Catalog<SortedBody>, alloc: Global, kind: Kind) -> Result<(), Fault> {
    match kind {
        Kind::Type => add_quantity(catalog, alloc),
        Kind::Base => add_p(catalog, alloc),
        Kind::Virtual => add_v(catalog, alloc),
        Kind::Constraint => add_c(catalog, alloc),
    }
}
