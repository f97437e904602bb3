//! Attributes set at once, each there before or new, to values that are given as columns.
ghost use Rattle.std.specs.Prelude.{◌≡◌, IfOk, IsTrue, List};
ghost use Rattle.td_algebra.specs.code.Columns.{AreColumns, AreColumnsOf, column_attributes};
ghost use Rattle.td_algebra.specs.code.Columns.{columns_view};
ghost use Rattle.td_algebra.specs.model.Operators.{Addition, set_relation};
ghost use Rattle.td_types.specs.model.Headings.{are_distinct};
ghost use Rattle.td_types.specs.model.Types.{attribute_names};

use crate::extension::{Column, extended_layout, extended_rows, heading_with};
use std::alloc::{AllocError, Global};
use td_tree::name::Name;
use td_types::heading::Heading;
use td_types::names::names_of;
use td_value::relation::Rel;

/// The relation with several attributes set: one that is there is replaced, and may change its
/// type; another is added. `Column::fits` is a test of what is required.
pub fn set_all(alloc: Global, rel: &Rel, columns: &[(Name, Column)]) -> Result<Rel, AllocError>
    requires distinct { IsTrue (are_distinct
        (attribute_names (column_attributes (columns_view columns.now)))) }
    requires fit { AreColumns (columns_view columns.now) rel.now.body }
    ensures { (additions : List Addition)
        → AreColumnsOf (columns_view columns.now) rel.now.body additions
        → IfOk result (λ r. r ≡ set_relation additions rel.now) }
{
    let old = rel.heading();
    old.reveal();
    let nothing = Heading::empty(alloc);
    let set = heading_with(&nothing, columns)?;
    let others = old.lacking(&set)?;
    let heading = heading_with(&others, columns)?;
    heading.reveal();
    let names = names_of(alloc, columns)?;
    let layout = extended_layout(alloc, &set, old, &names)?;
    let rows = extended_rows(alloc, rel.rows(), columns, &layout)?;
    Rel::new(heading, rows)
}
