//! The values of RELATION by its elements. Those that are tuples of literals are made in one block.
ghost use Rattle.std.specs.Prelude.{reverse};
ghost use Rattle.td_eval.specs.code.LentWorlds.{IsLentWorld, seen_by};
ghost use Rattle.td_eval.specs.model.OperatorValues.{headed_value, listed_value};
ghost use Rattle.td_eval.specs.model.TreeValues.{argument_values};
ghost use Rattle.td_tree.specs.model.Outcomes.{Answers, with_both, with_value};
ghost use Rattle.td_tree.specs.code.TreeViews.{heading_tree_view, trees_view};
ghost use Rattle.td_types.specs.model.TypeLists.{heading_meant};

use crate::flat::flat_tuples;
use crate::lent_world::LentWorld;
use crate::operators::elements::{headed_tuples, listed_tuples, listed_value, value_of_headed};
use crate::value::values_of;
use td_body::body::Body;
use td_tree::expression::Expr;
use td_tree::fault::Fault;
use td_tree::type_tree::AttributeTree;
use td_types::resolve::resolve_heading;
use td_value::tuple::Tuple;
use td_value::value::Value;

/// The relation of the elements, whose heading is the first one's.
#[cycle(value)]
pub(crate) fn listed_elements<B: Body>(
    lent: &LentWorld<'_, B>,
    tuples: &[Tuple],
    elements: &[Expr],
) -> Result<Value, Fault>
    requires { IsLentWorld lent.now }
    ensures { Answers (λ v. v) result (with_value
        (argument_values (seen_by lent.now) (reverse tuples.now) (trees_view elements.now))
        listed_value) }
{
    match flat_tuples(lent.alloc, elements)? {
        Some(flat) => listed_tuples(lent.alloc, flat),
        None => listed_value(lent.alloc, values_of(lent, tuples, elements)?),
    }
}

/// The relation of the heading with the elements.
#[cycle(value)]
pub(crate) fn headed_elements<B: Body>(
    lent: &LentWorld<'_, B>,
    tuples: &[Tuple],
    heading: &[AttributeTree],
    elements: &[Expr],
) -> Result<Value, Fault>
    requires { IsLentWorld lent.now }
    ensures { Answers (λ v. v) result (with_both
        (heading_meant (seen_by lent.now).scope.types (heading_tree_view heading.now))
        (argument_values (seen_by lent.now) (reverse tuples.now) (trees_view elements.now))
        headed_value) }
{
    let heading = resolve_heading(lent.types, heading);
    match flat_tuples(lent.alloc, elements)? {
        Some(flat) => headed_tuples(lent.alloc, heading?, flat),
        None => value_of_headed(lent.alloc, heading, values_of(lent, tuples, elements)),
    }
}
