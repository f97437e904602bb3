//! Small steps over what calls gave, whatever it is.
ghost use Rattle.std.specs.Prelude.{◌≡◌, ◌∷◌, IfOk, Ok, [], true};

use std::alloc::{AllocError, Global};
use td_tree::cause::Cause;
use td_tree::fault::Fault;

/// Both values, where there are both.
pub fn both<A: Drop, B: Drop, E: Drop>(
    first: Result<A, E>,
    second: Result<B, E>,
) -> Result<(A, B), E>
    ensures first { IfOk result (λ both. first ≡ Ok both.0) }
    ensures second { IfOk result (λ both. second ≡ Ok both.1) }
{
    let first = first?;
    Ok((first, second?))
}

/// The value, where it fits.
pub fn kept<T: Drop>(item: T, fits: Result<bool, Fault>) -> Result<T, Fault>
    ensures item { IfOk result (λ kept. kept ≡ item) }
    ensures fits { IfOk result (λ _. fits ≡ Ok true) }
{
    match fits {
        Ok(true) => Ok(item),
        Ok(false) => Err(Fault::Refused(Cause::TypeMismatch)),
        Err(fault) => Err(fault),
    }
}

/// The value, with want of memory as a fault.
pub fn made<T: Drop>(found: Result<T, AllocError>) -> Result<T, Fault>
    ensures { IfOk result (λ made. found ≡ Ok made) }
{
    Ok(found?)
}

/// The list of one item.
pub fn list_of<T: Drop>(alloc: Global, item: T) -> Result<Vec<T>, Fault>
    ensures { IfOk result (λ list. list.items ≡ item ∷ []) }
{
    let mut list = Vec::new(alloc);
    list.push(item)?;
    Ok(list)
}

/// Puts the item at the end of the list.
pub fn add<T: Drop>(list: &mut Vec<T>, item: Result<T, Fault>) -> Result<(), Fault> {
    list.push(item?)?;
    Ok(())
}
