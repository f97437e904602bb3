//! The values of operators that are applied to each tuple of a relation.
ghost use Rattle.std.specs.Prelude.{◌≡◌, IfOk, IsTrue, List, length, map};
ghost use Rattle.td_algebra.specs.code.Columns.{AreColumns, AreColumnsOf, column_attributes};
ghost use Rattle.td_algebra.specs.code.Columns.{columns_view};
ghost use Rattle.td_algebra.specs.model.Operators.{Addition, extended_relation};
ghost use Rattle.td_eval.specs.model.OperatorValues.{of_relation, restricted_value, truth_value};
ghost use Rattle.td_tree.specs.model.Outcomes.{Answers, Outcome, gathered};
ghost use Rattle.td_types.specs.model.Headings.{are_distinct, have_no_common};
ghost use Rattle.td_types.specs.model.Types.{attribute_names};
ghost use Rattle.td_value.specs.model.Values.{Tuple, Val};

use crate::operators::relational::as_value;
use std::alloc::Global;
use td_algebra::extension::{Column, extend_all};
use td_algebra::restriction::restrict;
use td_tree::fault::Fault;
use td_tree::name::Name;
use td_value::relation::Rel;
use td_value::value::Value;

/// The tuples whose truth values are TRUE.
pub fn restriction_value(
    alloc: Global,
    operand: &Rel,
    truths: Result<Vec<bool>, Fault>,
) -> Result<Value, Fault>
    requires { IfOk truths (λ m. length m.items ≡ length operand.now.body) }
    ensures { (p : Tuple → Outcome Val)
        → Answers (λ m. m.items) truths (gathered (map (λ t. truth_value (p t)) operand.now.body))
        → Answers (λ v. v) result (restricted_value p operand.now) }
{
    let truths = truths?;
    as_value(alloc, restrict(alloc, operand, &truths))
}

/// The tuples with new attributes, whose values are given as columns.
pub fn extension_value(
    alloc: Global,
    operand: &Rel,
    columns: Vec<(Name, Column)>,
) -> Result<Value, Fault>
    requires distinct { IsTrue (are_distinct
        (attribute_names (column_attributes (columns_view columns.items)))) }
    requires new { IsTrue (have_no_common
        (column_attributes (columns_view columns.items)) operand.now.heading) }
    requires fit { AreColumns (columns_view columns.items) operand.now.body }
    ensures { (additions : List Addition)
        → AreColumnsOf (columns_view columns.items) operand.now.body additions
        → Answers (λ v. v) result (of_relation (extended_relation additions operand.now)) }
{
    as_value(alloc, extend_all(alloc, operand, columns))
}
