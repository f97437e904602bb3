//! What an expression gives of each row.
ghost use Rattle.std.specs.Prelude.{◌≡◌, ◌∷◌, [], ℕ, IfOk, List, map};
ghost use Rattle.td_eval.specs.code.NewColumns.{column_view, with_values};
ghost use Rattle.td_eval.specs.model.OperatorValues.{truth_value, value_of_type};
ghost use Rattle.td_tree.specs.model.Outcomes.{Answers, Outcome, Valued, with_value};
ghost use Rattle.td_types.specs.code.Views.{type_view};
ghost use Rattle.td_value.specs.model.Values.{Val};

use crate::operators::requirements::{of_type, truth};
use std::alloc::{AllocError, Global};
use td_algebra::extension::Column;
use td_tree::fault::Fault;
use td_tree::name::Name;
use td_types::ty::Ty;
use td_value::tuple::Tuple;
use td_value::value::Value;

/// The tuples again, in a list that may grow.
pub(crate) fn copies_of(alloc: Global, tuples: &[Tuple]) -> Result<Vec<Tuple>, AllocError>
    ensures { IfOk result (λ copy. copy.items ≡ tuples.now) }
{
    let mut copy = Vec::with_capacity(alloc, tuples.len() + 1)?;
    for tuple in tuples {
        copy.push(tuple.try_clone()?)?;
    }
    Ok(copy)
}

/// The tuples themselves, in a list of their own.
pub(crate) fn copies_of_lent(alloc: Global, tuples: &[&Tuple]) -> Result<Vec<Tuple>, AllocError>
    ensures { IfOk result (λ copy. copy.items ≡ map (λ t. t.now) tuples.now) }
{
    let mut copy = Vec::with_capacity(alloc, tuples.len())?;
    for tuple in tuples {
        copy.push(tuple.try_clone()?)?;
    }
    Ok(copy)
}

/// The truth value that was answered.
pub fn truth_of(answer: Result<Value, Fault>) -> Result<bool, Fault>
    ensures { (o : Outcome Val) → Answers (λ v. v) answer o
        → Answers (λ b. b) result (truth_value o) }
{
    truth(&answer?)
}

/// The value that was answered, which is of the type.
pub fn value_of_its_type(ty: &Ty, answer: Result<Value, Fault>) -> Result<Value, Fault>
    ensures { (o : Outcome Val) → Answers (λ v. v) answer o
        → Answers (λ v. v) result (with_value o (value_of_type (type_view ty.now))) }
{
    of_type(ty, answer?)
}

/// The name with the value that was answered.
pub fn named_value(name: &Name, answer: Result<Value, Fault>) -> Result<(Name, Value), Fault>
    ensures { (o : Outcome Val) → Answers (λ v. v) answer o
        → Answers {A = List ℕ × Val} (λ e. e) result
        (with_value o (λ v. Valued (name.now, v))) }
{
    let value = answer?;
    Ok((name.try_clone()?, value))
}

/// The tuple whose one attribute has the name and the value.
pub fn tuple_of_one(alloc: Global, name: &Name, value: Value) -> Result<Tuple, Fault>
    ensures { Answers (λ t. t) result (Valued ((name.now, value) ∷ [])) }
{
    let mut entries = Vec::with_capacity(alloc, 1)?;
    entries.push((name.try_clone()?, value))?;
    Tuple::new(alloc, entries)
}

/// The new attribute with the values that were answered.
pub fn named_column(
    name: &Name,
    ty: &Ty,
    answer: Result<Vec<Value>, Fault>,
) -> Result<(Name, Column), Fault>
    ensures { (o : Outcome (List Val)) → Answers (λ vs. vs.items) answer o
        → Answers column_view result (with_values (name.now, type_view ty.now) o) }
{
    let values = answer?;
    let ty = ty.try_clone()?;
    Ok((name.try_clone()?, Column { ty, values }))
}
