//! Elements of a relation that are alike: tuples of literals with the same names, in the same
//! order, and the same types. They have one type, so that the first alone is looked at.
ghost use Rattle.std.specs.Prelude.{◌≡◌, ℕ, IsTrue, take};
ghost use Rattle.td_check.specs.model.StaticTypes.{literal_type};
ghost use Rattle.td_check.specs.code.Alike.{AreEnough, AreLike, AreLikeLiterals, AreLikeTuples};
ghost use Rattle.td_check.specs.code.Alike.{IsLikeTuple};
ghost use Rattle.td_tree.specs.code.TreeViews.{literal_view, named_view, tree_view, trees_view};

use td_tree::expression::{Expr, Literal, NamedExpr};

/// Whether the literals are seen to be of one type.
fn are_of_one_type(first: &Literal, second: &Literal) -> bool
    ensures { IsTrue result
        → literal_type (literal_view second.now) ≡ literal_type (literal_view first.now) }
{
    match (first, second) {
        (Literal::Number { .. }, Literal::Number { .. }) => true,
        (Literal::Text(_), Literal::Text(_)) => true,
        (Literal::Truth(_), Literal::Truth(_)) => true,
        _ => false,
    }
}

/// Whether both are literals that are seen to be of one type.
fn are_like_literals(first: &Expr, second: &Expr) -> bool
    ensures { IsTrue result → AreLikeLiterals (tree_view first.now) (tree_view second.now) }
{
    match (first, second) {
        (Expr::Literal(one), Expr::Literal(other)) => are_of_one_type(one, other),
        _ => false,
    }
}

/// Whether each of the parts has the name of the one at its place, and both are literals of one
/// type.
fn are_like(first: &[NamedExpr], second: &[NamedExpr]) -> bool
    ensures { IsTrue result → AreLike (named_view first.now) (named_view second.now) }
{
    if first.len() != second.len() {
        return false;
    }
    let mut place = 0;
    for part in second {
        let own = &first[place];
        if own.name != part.name || !are_like_literals(&own.value, &part.value) {
            return false;
        }
        place += 1;
    }
    true
}

/// Whether the element is a tuple of such parts.
fn is_like_tuple(first: &[NamedExpr], element: &Expr) -> bool
    ensures { IsTrue result → IsLikeTuple (named_view first.now) (tree_view element.now) }
{
    match element {
        Expr::Tuple(parts) => are_like(first, parts),
        _ => false,
    }
}

/// Whether each of the elements is.
fn are_like_tuples(first: &[NamedExpr], elements: &[Expr]) -> bool
    ensures { IsTrue result → AreLikeTuples (named_view first.now) (trees_view elements.now) }
{
    for element in elements {
        if !is_like_tuple(first, element) {
            return false;
        }
    }
    true
}

/// The elements; or the first alone, where all others are like it, so that a relation of them has
/// the same type.
pub(crate) fn but_for_alike(elements: &[Expr]) -> &[Expr]
    ensures front { (count : ℕ) × (result.now ≡ take count elements.now) }
    ensures enough { AreEnough (trees_view elements.now) (trees_view result.now) }
{
    let [first, rest @ ..] = elements else {
        return elements;
    };
    let Expr::Tuple(parts) = first else {
        return elements;
    };
    if are_like_tuples(parts, rest) {
        &elements[..1]
    } else {
        elements
    }
}
