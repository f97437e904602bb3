//! The values of operators with one operand.
ghost use Rattle.std.specs.Prelude.{◌≡◌, option_map};
ghost use Rattle.std.specs.List.{zip};
ghost use Rattle.std.specs.Rc.{rc_str_bytes};
ghost use Rattle.td_eval.specs.model.OperatorValues.{component_value, extracted_value};
ghost use Rattle.td_eval.specs.model.OperatorValues.{measure_value, only_tuple, prefix_value};
ghost use Rattle.td_tree.specs.model.Outcomes.{Answers};
ghost use Rattle.td_tree.specs.declared.operator.Prefix.TheVariants as prefixes;
ghost use Rattle.td_types.specs.model.Types.{attribute_names};
ghost use Rattle.td_types.specs.code.Views.{pairs_view};
ghost use Rattle.td_value.specs.model.Values.{selected_value, value_at};

use crate::operators::requirements::{relation_in, truth, tuple_in, value_or_cause};
use crate::operators::unnesting::closure_value;
use std::alloc::Global;
use std::rc::RcStr;
use td_tree::cause::Cause;
use td_tree::fault::Fault;
use td_tree::name::Name;
use td_tree::operator::{Measure, Prefix};
use td_types::table::TypeTable;
use td_types::ty::Ty;
use td_value::relation::Rel;
use td_value::user::User;
use td_value::value::{Node, Value};

/// The number with the other sign.
fn negative_value(operand: &Value) -> Result<Value, Fault>
    ensures { Answers (λ v. v) result (prefix_value prefixes.Negate operand.now) }
{
    match &operand.node {
        Node::Int(z) => Value::in_range(z.checked_neg()),
        _ => Err(Fault::Refused(Cause::TypeMismatch)),
    }
}

/// The relation's only tuple: another number of tuples is refused.
fn only_tuple(alloc: Global, rel: &Rel) -> Result<Value, Fault>
    ensures { Answers (λ v. v) result (only_tuple rel.now.body) }
{
    match rel.rows() {
        [tuple] => Ok(Value::tuple(alloc, tuple.try_clone()?)?),
        _ => Err(Fault::Refused(Cause::NotOneTuple)),
    }
}

/// The value of an operator before its operand.
pub fn prefix_value(alloc: Global, op: Prefix, operand: &Value) -> Result<Value, Fault>
    ensures { Answers (λ v. v) result (prefix_value op operand.now) }
{
    match op {
        Prefix::Not => Ok(Value::bool(!truth(operand)?)),
        Prefix::Negate => negative_value(operand),
        Prefix::TransitiveClosure => closure_value(alloc, relation_in(operand)?),
        Prefix::TupleFrom => only_tuple(alloc, relation_in(operand)?),
    }
}

/// The value of `A FROM t`.
pub fn extracted_value(name: &Name, operand: &Value) -> Result<Value, Fault>
    ensures { Answers (λ v. v) result (extracted_value name.now operand.now) }
{
    value_or_cause(tuple_in(operand)?.get(name), Cause::Heading)
}

/// The value of the component whose name is the text.
fn component_named<'a>(
    name: &RcStr,
    components: &[(Name, Ty)],
    values: &'a [Value],
) -> Option<&'a Value>
    ensures { option_map (λ v. v.now) result ≡ value_at (rc_str_bytes name.now)
        (zip (attribute_names (pairs_view components.now)) values.now) }
{
    let mut rest = components;
    for value in values {
        let [(component, _), later @ ..] = rest else {
            return None;
        };
        if component.as_str() == name.as_str() {
            return Some(value);
        }
        rest = later;
    }
    None
}

/// The value of the user value's component whose name is the text.
fn user_component(types: &TypeTable, name: &RcStr, user: &User) -> Result<Value, Fault>
    ensures { Answers (λ v. v) result
        (component_value types.now (rc_str_bytes name.now) (selected_value user.now)) }
{
    let Some(entry) = types.get(user.name()) else {
        return Err(Fault::Refused(Cause::NameUnknown));
    };
    let found = component_named(name, entry.components(), user.components());
    value_or_cause(found, Cause::NameUnknown)
}

/// The value of `THE_C(e)`, by what follows `THE_`.
pub fn component_value(types: &TypeTable, name: &RcStr, operand: &Value) -> Result<Value, Fault>
    ensures { Answers (λ v. v) result
        (component_value types.now (rc_str_bytes name.now) operand.now) }
{
    match &operand.node {
        Node::User(user) => user_component(types, name, user),
        _ => Err(Fault::Refused(Cause::TypeMismatch)),
    }
}

/// The value of COUNT or IS_EMPTY.
pub fn measure_value(op: Measure, operand: &Value) -> Result<Value, Fault>
    ensures { Answers (λ v. v) result (measure_value op operand.now) }
{
    let count = relation_in(operand)?.rows().len();
    match op {
        Measure::Count => Value::in_range(i64::try_from(count).ok()),
        Measure::IsEmpty => Ok(Value::bool(count == 0)),
    }
}
