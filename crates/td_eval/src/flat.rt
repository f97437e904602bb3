//! Elements that are tuples of literals, all of the same names in the same order: they are made in
//! one block, without a value for each.
ghost use Rattle.std.specs.Prelude.{◌≡◌, IfOk, IfSome, IsTrue, length, map};
ghost use Rattle.std.specs.List.{zip};
ghost use Rattle.std.specs.List.Sorted.{IsPermutation};
ghost use Rattle.td_algebra.specs.code.Layouts.{numbered_sources};
ghost use Rattle.td_eval.specs.code.FixedValues.{AreFixed, EntriesAreFixed, IsFixed, IsPut};
ghost use Rattle.td_tree.specs.code.TreeViews.{named_view, tree_view, trees_view};
ghost use Rattle.td_types.specs.model.Headings.{are_distinct};
ghost use Rattle.td_value.specs.model.Values.{tuple_value};

use crate::operators::literals::literal_value;
use std::alloc::{AllocError, Global};
use td_algebra::laid_out::LaidOut;
use td_algebra::layout::{Layout, put_names};
use td_tree::expression::{Expr, NamedExpr};
use td_tree::fault::Fault;
use td_tree::name::Name;
use td_types::names::repeats_a_name;
use td_value::tuple::Tuple;
use td_value::value::Value;

/// The value of a literal, if the expression is one that has a value.
fn literal(alloc: Global, expr: &Expr) -> Result<Option<Value>, AllocError>
    ensures { IfOk result (λ found. IfSome found (IsFixed (tree_view expr.now))) }
{
    let Expr::Literal(literal) = expr else {
        return Ok(None);
    };
    match literal_value(alloc, literal) {
        Ok(value) => Ok(Some(value)),
        Err(Fault::Refused(_)) => Ok(None),
        Err(Fault::Memory) => Err(AllocError),
    }
}

/// The names of the parts, in the order written.
fn names_in(alloc: Global, parts: &[NamedExpr]) -> Result<Vec<Name>, AllocError>
    ensures { IfOk result (λ names. names.items ≡ map (λ p. p.name) parts.now) }
{
    let mut names = Vec::with_capacity(alloc, parts.len())?;
    for part in parts {
        names.push(part.name.try_clone()?)?;
    }
    Ok(names)
}

/// The layout of values in the order of their names, if no name comes twice.
pub fn layout_of(alloc: Global, names: &[Name]) -> Result<Option<Layout>, AllocError>
    ensures distinct { IfOk result (λ found. IfSome found (λ _. IsTrue (are_distinct names.now))) }
    ensures places { IfOk result (λ found. IfSome found
        (IsPermutation (numbered_sources 0 names.now))) }
{
    let mut sources = Vec::with_capacity(alloc, names.len())?;
    put_names(&mut sources, names, 0)?;
    sources.sort_unstable();
    if repeats_a_name(&sources) {
        return Ok(None);
    }
    Ok(Some(Layout::new(alloc, sources)?))
}

/// Puts the values of the parts into the list, in place of what is there. Answers whether they are
/// literals with values, and of these names.
fn put_literals(
    alloc: Global,
    parts: &[NamedExpr],
    names: &[Name],
    row: &mut Vec<Value>,
) -> Result<bool, AllocError>
    ensures long { IfOk result (λ b. IsTrue b → length row.new.items ≡ length names.now) }
    ensures fixed { IfOk result (λ b. IsTrue b
        → EntriesAreFixed (named_view parts.now) (zip names.now row.new.items)) }
{
    row.clear();
    if parts.len() != names.len() {
        return Ok(false);
    }
    for (place, part) in parts.iter().enumerate() {
        if part.name != names[place] {
            return Ok(false);
        }
        let Some(value) = literal(alloc, &part.value)? else {
            return Ok(false);
        };
        row.push(value)?;
    }
    Ok(true)
}

/// Puts the tuple that the element is after the others. Answers whether it is one of literals with
/// values, and of these names. The row is a list in which its values are put together.
fn put_element(
    alloc: Global,
    element: &Expr,
    names: &[Name],
    row: &mut Vec<Value>,
    laid: &mut LaidOut<'_>,
) -> Result<bool, AllocError>
    requires distinct { IsTrue (are_distinct names.now) }
    requires places { IsPermutation (numbered_sources 0 names.now) laid.old.0 }
    ensures layout { IfOk result (λ b. IsTrue b → laid.new.0 ≡ laid.old.0) }
    ensures put { IfOk result (λ b. IsTrue b
        → IsPut (tree_view element.now) laid.old.1 laid.new.1) }
{
    let Expr::Tuple(parts) = element else {
        return Ok(false);
    };
    if !put_literals(alloc, parts, names, row)? {
        return Ok(false);
    }
    laid.put(row, &[])?;
    Ok(true)
}

/// The tuples that the elements are, if they are of literals with values, and of these names.
fn laid_elements(
    alloc: Global,
    elements: &[Expr],
    names: &[Name],
    layout: &Layout,
) -> Result<Option<Vec<Tuple>>, AllocError>
    requires distinct { IsTrue (are_distinct names.now) }
    requires places { IsPermutation (numbered_sources 0 names.now) layout.now }
    ensures { IfOk result (λ found. IfSome found (λ tuples.
        AreFixed (trees_view elements.now) (map tuple_value tuples.items))) }
{
    let mut laid = LaidOut::new(alloc, layout, elements.len())?;
    let mut row = Vec::with_capacity(alloc, names.len())?;
    for element in elements {
        if !put_element(alloc, element, names, &mut row, &mut laid)? {
            return Ok(None);
        }
    }
    Ok(Some(laid.finish(alloc)?))
}

/// The tuples that the elements are, if they are of literals with values, and of the names of the
/// first in the same order.
pub fn flat_tuples(alloc: Global, elements: &[Expr]) -> Result<Option<Vec<Tuple>>, AllocError>
    ensures { IfOk result (λ found. IfSome found (λ tuples.
        AreFixed (trees_view elements.now) (map tuple_value tuples.items))) }
{
    let Some(Expr::Tuple(parts)) = elements.first() else {
        return Ok(None);
    };
    let names = names_in(alloc, parts)?;
    match layout_of(alloc, &names)? {
        Some(layout) => laid_elements(alloc, elements, &names, &layout),
        None => Ok(None),
    }
}
