//! What expressions are in each tuple of a relation.
ghost use Rattle.std.specs.Prelude.{◌≡◌, ◌∷◌, IsTrue, length, map};
ghost use Rattle.td_eval.specs.model.OperatorValues.{set_value, truth_value};
ghost use Rattle.td_eval.specs.code.LentWorlds.{tuples_in_hand, world_in};
ghost use Rattle.td_eval.specs.model.TreeValues.{value_of, values_in_tuples};
ghost use Rattle.td_tree.specs.model.Outcomes.{Answers, gathered};
ghost use Rattle.td_tree.specs.code.TreeViews.{named_view, tree_view};
ghost use Rattle.td_types.specs.model.Headings.{are_distinct};
ghost use Rattle.td_types.specs.model.Types.{attribute_names};
ghost use Rattle.td_types.specs.code.Views.{pairs_view};

use crate::env::Env;
use crate::lent_world::LentWorld;
use crate::rows::copies_of_lent;
use crate::value::{columns, truths};
use std::alloc::Global;
use td_algebra::setting::set_all;
use td_body::body::Body;
use td_tree::expression::{Expr, NamedExpr};
use td_tree::fault::Fault;
use td_tree::name::Name;
use td_types::ty::Ty;
use td_value::relation::Rel;

/// The truth values of a condition, one for each tuple of the relation, in their order.
pub fn truths_in<B: Body>(
    alloc: Global,
    env: &Env<'_, B>,
    rel: &Rel,
    condition: &Expr,
) -> Result<Vec<bool>, Fault>
    ensures { Answers (λ m. m.items) result (gathered (map (λ t. truth_value (value_of
        (world_in env.now) (t ∷ tuples_in_hand env.now) (tree_view condition.now)))
        rel.now.body)) }
{
    let lent = LentWorld::of_env(alloc, env);
    truths(&lent, &copies_of_lent(alloc, env.tuples)?, rel, condition)
}

/// The relation with the attributes of each tuple set, all at once, to the values of the parts
/// there, which are of the attributes' types.
pub fn set_in_tuples<B: Body>(
    alloc: Global,
    env: &Env<'_, B>,
    rel: &Rel,
    attributes: &[(Name, Ty)],
    parts: &[NamedExpr],
) -> Result<Rel, Fault>
    requires lengths { length attributes.now ≡ length parts.now }
    requires distinct { IsTrue (are_distinct (attribute_names (pairs_view attributes.now))) }
    ensures { Answers (λ r. r) result (set_value (pairs_view attributes.now)
        (values_in_tuples (world_in env.now) (tuples_in_hand env.now) (named_view parts.now))
        rel.now) }
{
    let lent = LentWorld::of_env(alloc, env);
    let columns = columns(
        &lent,
        &copies_of_lent(alloc, env.tuples)?,
        rel,
        attributes,
        parts,
    )?;
    Ok(set_all(alloc, rel, &columns)?)
}
