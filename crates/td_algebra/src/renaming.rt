//! RENAME: the tuples with their names changed, all at once.
ghost use Rattle.std.specs.Prelude.{◌≡◌, IfOk, IsTrue, map};
ghost use Rattle.std.specs.List.{All};
ghost use Rattle.std.specs.List.Sorted.{IsPermutation};
ghost use Rattle.td_algebra.specs.code.Layouts.{AreInRange, Sources, numbered_sources};
ghost use Rattle.td_algebra.specs.code.Layouts.{placed_tuple};
ghost use Rattle.td_algebra.specs.model.Operators.{renamed_relation};
ghost use Rattle.td_types.specs.model.Headings.{can_rename, new_names};
ghost use Rattle.td_value.specs.code.Views.{values_of};

use crate::laid_out::LaidOut;
use crate::layout::{Layout, put_names};
use std::alloc::{AllocError, Global};
use td_tree::fault::without_refusal;
use td_tree::name::Name;
use td_types::heading::Heading;
use td_value::relation::Rel;
use td_value::tuple::Tuple;

/// The layout of the values under their new names.
fn renamed_layout(
    alloc: Global,
    heading: &Heading,
    renamings: &[(Name, Name)],
) -> Result<Layout, AllocError>
    requires { IsTrue (can_rename renamings.now heading.now) }
    ensures { IfOk result (λ layout.
        IsPermutation (numbered_sources 0 (new_names renamings.now heading.now)) layout) }
{
    let names = heading.new_names(renamings)?;
    let mut sources = Vec::with_capacity(alloc, names.len())?;
    put_names(&mut sources, &names, 0)?;
    Layout::new(alloc, sources)
}

/// The tuples that the layout makes of the rows.
fn laid_rows(alloc: Global, layout: &Layout, rows: &[Tuple]) -> Result<Vec<Tuple>, AllocError>
    requires { All (λ t. AreInRange layout.now (values_of t)) rows.now }
    ensures { (sources : Sources) → IsPermutation sources layout.now
        → IfOk result (λ tuples. tuples.items
        ≡ map (λ t. placed_tuple sources (values_of t)) rows.now) }
{
    let mut made = LaidOut::new(alloc, layout, rows.len())?;
    for row in rows {
        made.put(row.values(), &[])?;
    }
    made.finish(alloc)
}

/// The relation with its attributes renamed, each renaming a pair of an old and a new name.
/// `Heading::can_rename` is the test of what is required.
pub fn rename(alloc: Global, rel: &Rel, renamings: &[(Name, Name)]) -> Result<Rel, AllocError>
    requires { IsTrue (can_rename renamings.now rel.now.heading) }
    ensures { IfOk result (λ r. r ≡ renamed_relation renamings.now rel.now) }
{
    let heading = without_refusal(rel.heading().rename(renamings))?;
    heading.reveal();
    let layout = renamed_layout(alloc, rel.heading(), renamings)?;
    let rows = laid_rows(alloc, &layout, rel.rows())?;
    Rel::new(heading, rows)
}
