//! What operators ask of a value.
ghost use Rattle.std.specs.Prelude.{◌≡◌, map, option_map, reverse};
ghost use Rattle.td_check.specs.model.OperatorTypes.{are_types_of, known_or, same_type};
ghost use Rattle.td_eval.specs.model.OperatorValues.{on_relation, on_truth, on_tuple};
ghost use Rattle.td_eval.specs.model.OperatorValues.{value_of_type};
ghost use Rattle.td_eval.specs.model.Worlds.{innermost_value};
ghost use Rattle.td_tree.specs.model.Outcomes.{Answers, Valued};
ghost use Rattle.td_types.specs.code.Views.{pairs_view, type_view};
ghost use Rattle.td_value.specs.model.Values.{Val, type_of};

use td_tree::cause::Cause;
use td_tree::fault::Fault;
use td_tree::name::Name;
use td_types::ty::Ty;
use td_value::relation::Rel;
use td_value::tuple::Tuple;
use td_value::value::{Node, Value};

/// The truth value: another value is refused.
pub fn truth(v: &Value) -> Result<bool, Fault>
    ensures { Answers (λ b. b) result (on_truth v.now Valued) }
{
    match &v.node {
        Node::Bool(b) => Ok(*b),
        _ => Err(Fault::Refused(Cause::TypeMismatch)),
    }
}

/// The relation: another value is refused.
pub fn relation_in(v: &Value) -> Result<&Rel, Fault>
    ensures { Answers (λ r. r.now) result (on_relation v.now Valued) }
{
    match &v.node {
        Node::Rel(r) => Ok(r),
        _ => Err(Fault::Refused(Cause::TypeMismatch)),
    }
}

/// The tuple: another value is refused.
pub fn tuple_in(v: &Value) -> Result<&Tuple, Fault>
    ensures { Answers (λ t. t.now) result (on_tuple v.now Valued) }
{
    match &v.node {
        Node::Tup(t) => Ok(t),
        _ => Err(Fault::Refused(Cause::TypeMismatch)),
    }
}

/// The value that must be found, else that cause.
pub fn value_or_cause(found: Option<&Value>, cause: Cause) -> Result<Value, Fault>
    ensures { Answers (λ v. v) result
        (known_or {A = Val} cause (option_map (λ v. v.now) found.entry)) }
{
    match found {
        Some(value) => Ok(value.try_clone()?),
        None => Err(Fault::Refused(cause)),
    }
}

/// The value of the innermost attribute of the name. The innermost tuple is the last.
pub fn attribute<'a>(tuples: &'a [Tuple], name: &Name) -> Option<&'a Value>
    ensures { option_map (λ v. v.now) result ≡ innermost_value name.now (reverse tuples.now) }
{
    for tuple in tuples.iter().rev() {
        if let Some(value) = tuple.get(name) {
            return Some(value);
        }
    }
    None
}

/// Whether the value is of the type.
fn is_of(value: &Value, ty: &Ty) -> bool
    ensures { result ≡ same_type (type_of value.now) (type_view ty.now) }
{
    value.has_type(ty)
}

/// The value, where it is of the type.
pub fn of_type(ty: &Ty, value: Value) -> Result<Value, Fault>
    ensures { Answers (λ v. v) result (value_of_type (type_view ty.now) value) }
{
    if is_of(&value, ty) {
        Ok(value)
    } else {
        Err(Fault::Refused(Cause::TypeMismatch))
    }
}

/// Whether these have, in number and order, the types of the components.
pub fn have_types(values: &[Value], components: &[(Name, Ty)]) -> bool
    ensures { result ≡ are_types_of (map type_of values.now) (pairs_view components.now) }
{
    let mut rest = components;
    for value in values {
        match rest {
            [(_, asked), later @ ..] if is_of(value, asked) => rest = later,
            _ => return false,
        }
    }
    rest.is_empty()
}
