//! What a change reaches.
ghost use Rattle.std.specs.Prelude.{◌≡◌, IfOk, OnOk};
ghost use Rattle.td_catalog.specs.code.CatalogViews.{virtual_view};
ghost use Rattle.td_eval.specs.laws.ReachedRelvars.{reached_from, with_dependent};

use std::alloc::AllocError;
use td_body::body::Body;
use td_catalog::catalog::Catalog;
use td_catalog::entry::VirtualEntry;
use td_catalog::marked_names::MarkedNames;
use td_tree::name::Name;

/// Adds a virtual relvar in which one of those reached is named.
fn reach(reached: &mut MarkedNames, name: &Name, entry: &VirtualEntry) -> Result<(), AllocError>
    ensures { OnOk result (reached.new
        ≡ with_dependent reached.old (virtual_view (name.now, entry.now))) }
{
    if !entry.tree.names_any(reached) {
        return Ok(());
    }
    reached.push(name.try_clone()?)
}

/// What a change of these base relvars reaches: with them each virtual relvar in which one that is
/// reached is named.
pub(crate) fn reached_from<B: Body>(
    catalog: &Catalog<B>,
    changed: Vec<Name>,
) -> Result<MarkedNames, AllocError>
    ensures { IfOk result (λ reached.
        reached ≡ reached_from changed.items catalog.now.database.virtuals) }
{
    let mut reached = MarkedNames::new(changed);
    for place in 0..catalog.virtual_count() {
        let Some((name, entry)) = catalog.nth_virtual(place) else {
            return Ok(reached);
        };
        reach(&mut reached, name, entry)?;
    }
    Ok(reached)
}
