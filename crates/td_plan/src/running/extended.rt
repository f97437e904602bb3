//! The tuples of a relation with attributes set, each there before or new.
ghost use Rattle.std.specs.Prelude.{◌≡◌, IfOk, List, length, not};
ghost use Rattle.std.specs.List.{list_all};
ghost use Rattle.td_algebra.specs.code.Columns.{columns_view};
ghost use Rattle.td_eval.specs.code.NewColumns.{AreColumnsFor, named_columns};
ghost use Rattle.td_eval.specs.model.OperatorValues.{extended_by_settings};
ghost use Rattle.td_tree.specs.model.Outcomes.{Answers, Outcome, Valued, gathered};
ghost use Rattle.td_types.specs.model.Headings.{has_attribute};
ghost use Rattle.td_types.specs.code.Views.{pairs_view};
ghost use Rattle.td_value.specs.model.Values.{Tuple, Val};

use std::alloc::Global;
use td_algebra::extension::Column;
use td_eval::extension::{extension_by, setting_by};
use td_tree::fault::Fault;
use td_tree::name::Name;
use td_types::heading::Heading;
use td_types::ty::Ty;
use td_value::relation::Rel;
use td_value::value::Value;

/// Whether none of the attributes is one of the heading's.
fn are_new(attributes: &[(Name, Ty)], heading: &Heading) -> bool
    ensures { result ≡ list_all (λ a. not (has_attribute a.0 heading.now))
        (pairs_view attributes.now) }
{
    attributes
        .iter()
        .all(|attribute| heading.get(&attribute.0).is_none())
}

/// The tuples of a relation with attributes set, by what is answered of their values. Attributes
/// that are new are added, which leaves the tuples in their order where the names come last.
#[inline(never)]
pub(crate) fn set_by(
    alloc: Global,
    rel: &Rel,
    attributes: &[(Name, Ty)],
    columns: Result<Vec<(Name, Column)>, Fault>,
) -> Result<Value, Fault>
    requires { IfOk columns (λ cs. AreColumnsFor (pairs_view attributes.now) rel.now.body
        (columns_view cs.items)) }
    ensures { (fs : List (Tuple → Outcome Val)) → length attributes.now ≡ length fs
        → Answers (λ cs. columns_view cs.items) columns
        (gathered (named_columns (pairs_view attributes.now) fs rel.now.body))
        → Answers (λ v. v) result
        (extended_by_settings (Valued (pairs_view attributes.now)) fs rel.now) }
{
    let heading = rel.heading();
    heading.reveal();
    rel.reveal();
    if are_new(attributes, heading) {
        extension_by(alloc, rel, attributes, columns)
    } else {
        setting_by(alloc, rel, attributes, columns)
    }
}
