//! Lists that grow.
ghost use Rattle.std.specs.Prelude.{◌≡◌, ◌∷◌, ◌++◌, [], OnErr, OnOk};

use std::alloc::AllocError;

/// Puts the item after the others.
pub fn put<T: Drop>(items: &mut Vec<T>, item: T) -> Result<(), AllocError>
    ensures ok { OnOk result (items.new.items ≡ items.old.items ++ item ∷ []) }
    ensures err { OnErr result (items.new.items ≡ items.old.items) }
{
    items.push(item)?;
    Ok(())
}
