//! Where the values of the tuples stand that WRAP, UNGROUP and UNWRAP make.
ghost use Rattle.std.specs.Prelude.{◌++◌, IfOk, IsTrue};
ghost use Rattle.std.specs.List.Sorted.{IsPermutation};
ghost use Rattle.td_algebra.specs.code.Layouts.{sources_with};
ghost use Rattle.td_types.specs.model.Headings.{are_distinct, outside};
ghost use Rattle.td_types.specs.model.Types.{attribute_names};

use std::alloc::{AllocError, Global};
use td_algebra::layout::{Layout, put_names, put_sources};
use td_tree::name::Name;
use td_types::heading::Heading;

/// The layout of a row's values, but for those of the part's names, followed by values of more
/// names.
pub(crate) fn row_layout(
    alloc: Global,
    part: &Heading,
    heading: &Heading,
    names: &[Name],
) -> Result<Layout, AllocError>
    requires { IsTrue (are_distinct (attribute_names (outside part.now heading.now) ++ names.now)) }
    ensures { IfOk result (λ layout.
        IsPermutation (sources_with part.now heading.now names.now) layout) }
{
    heading.reveal();
    let mut sources = Vec::new(alloc);
    put_sources(&mut sources, heading, 0, part)?;
    put_names(&mut sources, names, heading.len())?;
    Layout::new(alloc, sources)
}
