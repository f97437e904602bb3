//! The value of WITH: each of its items has a value where those before it are in scope.
ghost use Rattle.std.specs.Prelude.{reverse};
ghost use Rattle.td_eval.specs.code.LentWorlds.{IsLentWorld, seen_by};
ghost use Rattle.td_eval.specs.model.TreeValues.{value_of, value_where_bound};
ghost use Rattle.td_tree.specs.model.Outcomes.{Answers};
ghost use Rattle.td_tree.specs.code.TreeViews.{named_view, tree_view};

use crate::lent_world::LentWorld;
use crate::rows::{copies_of, tuple_of_one};
use crate::value::value_of;
use td_body::body::Body;
use td_tree::expression::{Expr, NamedExpr};
use td_tree::fault::Fault;
use td_value::tuple::Tuple;
use td_value::value::Value;

/// The value of an expression where the values of WITH's items are in scope too, each as a tuple of
/// one attribute. The first item that has no value decides.
#[cycle(value)]
pub(crate) fn bound<B: Body>(
    lent: &LentWorld<'_, B>,
    tuples: &[Tuple],
    items: &[NamedExpr],
    expr: &Expr,
) -> Result<Value, Fault>
    requires { IsLentWorld lent.now }
    ensures { Answers (λ v. v) result
        (value_where_bound (seen_by lent.now) (reverse tuples.now) (named_view items.now)
        (λ inner. value_of (seen_by lent.now) inner (tree_view expr.now))) }
{
    let mut inner = copies_of(lent.alloc, tuples)?;
    for item in items {
        let value = value_of(lent, &inner, &item.value)?;
        inner.push(tuple_of_one(lent.alloc, &item.name, value)?)?;
    }
    value_of(lent, &inner, expr)
}
