//! The values of tuples and of relations by their parts.
ghost use Rattle.std.specs.Prelude.{IfOk, List, OnOk, map};
ghost use Rattle.std.specs.List.{All};
ghost use Rattle.td_eval.specs.model.OperatorValues.{element_of, headed_value, listed_value};
ghost use Rattle.td_eval.specs.model.OperatorValues.{tuple_from};
ghost use Rattle.td_tree.specs.model.Outcomes.{Answers, Outcome, gathered, with_both};
ghost use Rattle.td_types.specs.model.Types.{Heading};
ghost use Rattle.td_value.specs.model.Values.{IsTupleOf, Val, tuple_value};

use crate::operators::relational::{as_value, fit};
use crate::operators::requirements::tuple_in;
use std::alloc::Global;
use td_tree::cause::Cause;
use td_tree::fault::Fault;
use td_tree::gathering::{Gathering, both};
use td_tree::name::Name;
use td_types::heading::Heading;
use td_value::relation::Rel;
use td_value::tuple::Tuple;
use td_value::value::Value;

/// The tuple that gives each name its value: refused where a name comes twice.
pub fn tuple_from(alloc: Global, entries: Vec<(Name, Value)>) -> Result<Value, Fault>
    ensures { Answers (λ v. v) result (tuple_from entries.items) }
{
    Ok(Value::tuple(alloc, Tuple::new(alloc, entries)?)?)
}

/// The tuple that an element is, which is of the heading.
fn element_of(heading: &Heading, element: &Value) -> Result<Tuple, Fault>
    ensures answer { Answers (λ t. t) result (element_of heading.now element.now) }
    ensures headed { IfOk result (IsTupleOf heading.now) }
{
    let tuple = tuple_in(element)?;
    fit(tuple.has_heading(heading))?;
    Ok(tuple.try_clone()?)
}

/// The tuples that the elements are, which are of the heading.
fn elements_of(alloc: Global, heading: &Heading, elements: &[Value]) -> Result<Vec<Tuple>, Fault>
    ensures answer { Answers (λ ts. ts.items) result
        (gathered (map (element_of heading.now) elements.now)) }
    ensures headed { IfOk result (λ ts. All (IsTupleOf heading.now) ts.items) }
{
    let mut causes = Gathering::new();
    let mut tuples = Vec::with_capacity(alloc, elements.len())?;
    for element in elements {
        causes.collect(&mut tuples, element_of(heading, element))?;
    }
    causes.finish(tuples)
}

/// The relation of the heading with the elements, which are tuples of it.
fn headed_value(alloc: Global, heading: Heading, elements: &[Value]) -> Result<Value, Fault>
    ensures { Answers (λ v. v) result (headed_value heading elements.now) }
{
    let tuples = elements_of(alloc, &heading, elements)?;
    as_value(alloc, Rel::new(heading, tuples))
}

/// The relation of the elements, which are tuples of one heading, the first one's.
pub fn listed_value(alloc: Global, elements: Vec<Value>) -> Result<Value, Fault>
    ensures { Answers (λ v. v) result (listed_value elements.items) }
{
    match elements.first() {
        Some(first) => headed_value(alloc, tuple_in(first)?.heading()?, &elements),
        None => Err(Fault::Refused(Cause::TypeMismatch)),
    }
}

/// The relation of the heading with the elements, by what is answered of both.
pub fn value_of_headed(
    alloc: Global,
    heading: Result<Heading, Fault>,
    elements: Result<Vec<Value>, Fault>,
) -> Result<Value, Fault>
    ensures { (o : Outcome Heading) (p : Outcome (List Val)) → Answers (λ h. h) heading o
        → Answers (λ vs. vs.items) elements p
        → Answers (λ v. v) result (with_both o p headed_value) }
{
    let (heading, elements) = both(heading, elements)?;
    headed_value(alloc, heading, &elements)
}

/// That the tuples are of the heading: refused where one is not.
fn all_fit(heading: &Heading, tuples: &[Tuple]) -> Result<(), Fault>
    ensures answer { Answers (λ _. tuples.now) result
        (gathered (map (λ t. element_of heading.now (tuple_value t)) tuples.now)) }
    ensures headed { OnOk result (All (IsTupleOf heading.now) tuples.now) }
{
    for tuple in tuples {
        fit(tuple.has_heading(heading))?;
    }
    Ok(())
}

/// The relation of the heading with the tuples, which are of it.
pub fn headed_tuples(alloc: Global, heading: Heading, tuples: Vec<Tuple>) -> Result<Value, Fault>
    ensures { Answers (λ v. v) result (headed_value heading (map tuple_value tuples.items)) }
{
    all_fit(&heading, &tuples)?;
    as_value(alloc, Rel::new(heading, tuples))
}

/// The relation of the tuples, which are of one heading, the first one's.
pub fn listed_tuples(alloc: Global, tuples: Vec<Tuple>) -> Result<Value, Fault>
    ensures { Answers (λ v. v) result (listed_value (map tuple_value tuples.items)) }
{
    match tuples.first() {
        Some(first) => headed_tuples(alloc, first.heading()?, tuples),
        None => Err(Fault::Refused(Cause::TypeMismatch)),
    }
}
