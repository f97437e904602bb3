//! The values of user types' selectors.
ghost use Rattle.std.specs.Prelude.{◌≡◌, Bool, IfOk};
ghost use Rattle.std.specs.List.{zip};
ghost use Rattle.td_tree.specs.model.Outcomes.{Answers, Outcome, value_if, with_value};
ghost use Rattle.td_tree.specs.declared.cause.Cause.TheVariants as causes;
ghost use Rattle.td_types.specs.model.Types.{attribute_names};
ghost use Rattle.td_types.specs.code.Views.{pairs_view};
ghost use Rattle.td_value.specs.model.Values.{Val, made_tuple, selected_value, user_view};

use std::alloc::{AllocError, Global};
use td_tree::cause::Cause;
use td_tree::fault::Fault;
use td_tree::name::Name;
use td_types::ty::Ty;
use td_value::tuple::Tuple;
use td_value::user::User;
use td_value::value::Value;

/// The names of the components with the values.
fn component_entries(
    alloc: Global,
    components: &[(Name, Ty)],
    values: &[Value],
) -> Result<Vec<(Name, Value)>, AllocError>
    ensures { IfOk result (λ entries. entries.items
        ≡ zip (attribute_names (pairs_view components.now)) values.now) }
{
    let mut entries = Vec::with_capacity(alloc, values.len())?;
    let mut rest = components;
    for value in values {
        let [(name, _), later @ ..] = rest else {
            return Ok(entries);
        };
        entries.push((name.try_clone()?, value.try_clone()?))?;
        rest = later;
    }
    Ok(entries)
}

/// The tuple that gives the name of each component its value.
pub fn component_tuple(
    alloc: Global,
    components: &[(Name, Ty)],
    values: &[Value],
) -> Result<Tuple, Fault>
    ensures { Answers (λ t. t) result
        (made_tuple (zip (attribute_names (pairs_view components.now)) values.now)) }
{
    Tuple::new(alloc, component_entries(alloc, components, values)?)
}

/// The user value of the components, where the type's constraint holds.
pub fn user_value(
    alloc: Global,
    name: &Name,
    values: Vec<Value>,
    holds: Result<bool, Fault>,
) -> Result<Value, Fault>
    ensures { (o : Outcome Bool) → Answers (λ b. b) holds o
        → Answers (λ v. v) result (with_value o (λ holds.
        value_if holds (selected_value (user_view name.now values.items)) causes.TypeConstraint)) }
{
    if holds? {
        let selected = User::new(name.try_clone()?, values);
        Ok(Value::user(alloc, selected)?)
    } else {
        Err(Fault::Refused(Cause::TypeConstraint))
    }
}
