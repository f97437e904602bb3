//! The rules of operators with one operand.
ghost use Rattle.std.specs.Prelude.{◌≡◌, ◌||◌, option_map};
ghost use Rattle.std.specs.Rc.{rc_str_bytes};
ghost use Rattle.td_check.specs.model.OperatorTypes.{aggregate_type, closure_type, component_type};
ghost use Rattle.td_check.specs.model.OperatorTypes.{extracted_type, if_type, measure_type};
ghost use Rattle.td_check.specs.model.OperatorTypes.{prefix_type, same_type};
ghost use Rattle.td_check.specs.model.StaticTypes.{literal_type};
ghost use Rattle.td_tree.specs.model.Outcomes.{Answers, value_if};
ghost use Rattle.td_tree.specs.code.TreeViews.{literal_view};
ghost use Rattle.td_tree.specs.declared.cause.Cause.TheVariants as causes;
ghost use Rattle.td_types.specs.model.Types.{char, integer, type_at, user};
ghost use Rattle.td_types.specs.code.Views.{pairs_view, type_view};

use crate::rules::requirements::{relation_heading, tuple_heading};
use std::alloc::Global;
use std::rc::RcStr;
use td_tree::cause::Cause;
use td_tree::expression::Literal;
use td_tree::fault::Fault;
use td_tree::name::Name;
use td_tree::operator::{Aggregate, Measure, Prefix};
use td_types::heading::Heading;
use td_types::table::TypeTable;
use td_types::ty::Ty;

/// The type of a literal.
pub(crate) fn literal_type(literal: &Literal, alloc: Global) -> Ty
    ensures { type_view result ≡ literal_type (literal_view literal.now) }
{
    match literal {
        Literal::Number { .. } => Ty::Int,
        Literal::Text(_) => Ty::Text,
        Literal::Truth(_) => Ty::Bool,
        Literal::TableDee | Literal::TableDum => Ty::Rel(Heading::empty(alloc)),
    }
}

/// The type of the operand, where it is the required one; another is refused.
pub(crate) fn type_asked(asked: Ty, operand: &Ty) -> Result<Ty, Fault>
    ensures { Answers type_view result
        (if_type (type_view asked) (type_view operand.now) (type_view asked)) }
{
    if *operand == asked {
        Ok(asked)
    } else {
        Err(Fault::Refused(Cause::TypeMismatch))
    }
}

/// The type of an operator before its operand.
pub(crate) fn prefix_type(op: Prefix, operand: &Ty) -> Result<Ty, Fault>
    ensures { Answers type_view result (prefix_type op (type_view operand.now)) }
{
    match op {
        Prefix::Not => type_asked(Ty::Bool, operand),
        Prefix::Negate => type_asked(Ty::Int, operand),
        Prefix::TransitiveClosure => closure_type(relation_heading(operand)?),
        Prefix::TupleFrom => Ok(Ty::Tup(relation_heading(operand)?.try_clone()?)),
    }
}

/// The type of a closure: refused unless there are two attributes of one type.
fn closure_type(heading: &Heading) -> Result<Ty, Fault>
    ensures { Answers type_view result (closure_type heading.now) }
{
    if heading.is_closable() {
        Ok(Ty::Rel(heading.try_clone()?))
    } else {
        Err(Fault::Refused(Cause::Heading))
    }
}

/// The type of `A FROM t`.
pub(crate) fn extracted_type(name: &Name, operand: &Ty) -> Result<Ty, Fault>
    ensures { Answers type_view result (extracted_type name.now (type_view operand.now)) }
{
    match tuple_heading(operand)?.get(name) {
        Some(ty) => Ok(ty.try_clone()?),
        None => Err(Fault::Refused(Cause::Heading)),
    }
}

/// The type of `THE_C(e)`, by what follows `THE_`.
pub(crate) fn component_type(types: &TypeTable, name: &RcStr, operand: &Ty) -> Result<Ty, Fault>
    ensures { Answers type_view result
        (component_type types.now (rc_str_bytes name.now) (type_view operand.now)) }
{
    match operand {
        Ty::User(ty) => user_component(types, name, ty),
        _ => Err(Fault::Refused(Cause::TypeMismatch)),
    }
}

/// The type of a component of the user type of that name.
fn user_component(types: &TypeTable, name: &RcStr, ty: &Name) -> Result<Ty, Fault>
    ensures { Answers type_view result
        (component_type types.now (rc_str_bytes name.now) (user ty.now)) }
{
    let Some(entry) = types.get(ty) else {
        return Err(Fault::Refused(Cause::NameUnknown));
    };
    match component_named(name, entry.components()) {
        Some(component) => Ok(component.try_clone()?),
        None => Err(Fault::Refused(Cause::NameUnknown)),
    }
}

/// The type of the component whose name is the text.
fn component_named<'a>(name: &RcStr, components: &'a [(Name, Ty)]) -> Option<&'a Ty>
    ensures { option_map (λ t. type_view t.now) result
        ≡ type_at (rc_str_bytes name.now) (pairs_view components.now) }
{
    for (component, ty) in components {
        if component.as_str() == name.as_str() {
            return Some(ty);
        }
    }
    None
}

/// The type of COUNT or IS_EMPTY of an operand.
pub(crate) fn measure_type(op: Measure, operand: &Ty) -> Result<Ty, Fault>
    ensures { Answers type_view result (measure_type op (type_view operand.now)) }
{
    relation_heading(operand)?;
    match op {
        Measure::Count => Ok(Ty::Int),
        Measure::IsEmpty => Ok(Ty::Bool),
    }
}

/// The type of an aggregate, by the type of the values.
pub(crate) fn aggregate_type(op: Aggregate, value: Ty) -> Result<Ty, Fault>
    ensures { Answers type_view result (aggregate_type op (type_view value)) }
{
    match op {
        Aggregate::Sum => type_asked(Ty::Int, &value),
        Aggregate::Max | Aggregate::Min => ordered_type(value),
    }
}

/// The type of the greatest and of the least: that of the values, which have an order.
fn ordered_type(value: Ty) -> Result<Ty, Fault>
    ensures { Answers type_view result
        (value_if (same_type (type_view value) integer || same_type (type_view value) char)
        (type_view value) causes.TypeMismatch) }
{
    match value {
        Ty::Int => Ok(Ty::Int),
        Ty::Text => Ok(Ty::Text),
        _ => Err(Fault::Refused(Cause::TypeMismatch)),
    }
}
