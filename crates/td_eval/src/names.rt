//! What the names of relvars and selectors mean in what an expression is evaluated in.
ghost use Rattle.td_eval.specs.code.LentWorlds.{world_in};
ghost use Rattle.td_eval.specs.model.Worlds.{known_outcome, selector_outcome};
ghost use Rattle.td_tree.specs.model.Outcomes.{Answers};

use crate::env::Env;
use crate::lent_world::LentWorld;
use crate::value::{relvar_value, selector_outcome};
use std::alloc::Global;
use td_body::body::Body;
use td_tree::fault::Fault;
use td_tree::name::Name;
use td_value::value::Value;

/// The value of the relvar of the name. A virtual relvar's is that of its expression.
pub fn relvar_in<B: Body>(alloc: Global, env: &Env<'_, B>, name: &Name) -> Result<Value, Fault>
    ensures { Answers (λ v. v) result (known_outcome ((world_in env.now).relvar name.now)) }
{
    relvar_value(&LentWorld::of_env(alloc, env), name)
}

/// What the selector of the name gives of components.
pub fn selected_in<B: Body>(
    alloc: Global,
    env: &Env<'_, B>,
    name: &Name,
    values: Vec<Value>,
) -> Result<Value, Fault>
    ensures { Answers (λ v. v) result (selector_outcome (world_in env.now) name.now values.items) }
{
    selector_outcome(&LentWorld::of_env(alloc, env), name, values)
}
