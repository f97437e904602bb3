//! The values of literals.
ghost use Rattle.std.specs.Prelude.{FitsSigned};
ghost use Rattle.std.specs.Int.{w64};
ghost use Rattle.std.specs.Option.{SomeIff};
ghost use Rattle.td_eval.specs.model.OperatorValues.{literal_value, signed_number};
ghost use Rattle.td_tree.specs.model.Outcomes.{Answers};
ghost use Rattle.td_tree.specs.code.TreeViews.{literal_view};
ghost use Rattle.td_tree.specs.model.Trees.{table_dee, table_dum};

use crate::operators::relational::as_value;
use std::alloc::Global;
use td_tree::expression::{Literal, MAX_MAGNITUDE};
use td_tree::fault::Fault;
use td_types::heading::Heading;
use td_value::relation::Rel;
use td_value::tuple::Tuple;
use td_value::value::Value;

/// The number of a magnitude with its sign, where it is in range.
fn signed_number(minus: bool, magnitude: u64) -> Option<i64>
    ensures { SomeIff result (FitsSigned w64 (signed_number minus magnitude)) (signed_number minus
        magnitude) }
{
    if magnitude < MAX_MAGNITUDE {
        let number = magnitude as i64;
        Some(if minus { -number } else { number })
    } else if minus && magnitude == MAX_MAGNITUDE {
        Some(i64::MIN)
    } else {
        None
    }
}

/// No attribute, and the tuple that has none.
fn table_dee(alloc: Global) -> Result<Value, Fault>
    ensures { Answers (λ v. v) result (literal_value table_dee) }
{
    let mut rows = Vec::with_capacity(alloc, 1)?;
    rows.push(Tuple::new(alloc, Vec::new(alloc))?)?;
    as_value(alloc, Rel::new(Heading::empty(alloc), rows))
}

/// No attribute, and no tuple.
fn table_dum(alloc: Global) -> Result<Value, Fault>
    ensures { Answers (λ v. v) result (literal_value table_dum) }
{
    as_value(alloc, Rel::new(Heading::empty(alloc), Vec::new(alloc)))
}

/// The value of a literal: a number out of range is refused.
pub fn literal_value(alloc: Global, literal: &Literal) -> Result<Value, Fault>
    ensures { Answers (λ v. v) result (literal_value (literal_view literal.now)) }
{
    match literal {
        Literal::Number { minus, magnitude } => Value::in_range(signed_number(*minus, *magnitude)),
        Literal::Text(content) => Ok(Value::shared_text(content.clone()?)),
        Literal::Truth(b) => Ok(Value::bool(*b)),
        Literal::TableDee => table_dee(alloc),
        Literal::TableDum => table_dum(alloc),
    }
}
