//! WHERE.
ghost use Rattle.std.specs.Prelude.{◌≡◌, Bool, IfOk, length, map};
ghost use Rattle.td_algebra.specs.code.Masks.{kept_by};
ghost use Rattle.td_algebra.specs.model.Operators.{restriction};
ghost use Rattle.td_value.specs.model.Values.{Tuple};

use crate::sets::with_rows;
use std::alloc::{AllocError, Global};
use td_value::relation::Rel;
use td_value::tuple::Tuple;

/// The rows whose places in the mask are true.
fn kept_rows(alloc: Global, rows: &[Tuple], mask: &[bool]) -> Result<Vec<Tuple>, AllocError>
    requires { length mask.now ≡ length rows.now }
    ensures { IfOk result (λ kept. kept.items ≡ kept_by mask.now rows.now) }
{
    let mut kept = Vec::new(alloc);
    let mut place = 0;
    for row in rows {
        if mask[place] {
            kept.push(row.try_clone()?)?;
        }
        place += 1;
    }
    Ok(kept)
}

/// The tuples whose places in the mask are true. The mask has one place for each tuple, in the
/// order of `Rel::rows`.
pub fn restrict(alloc: Global, rel: &Rel, mask: &[bool]) -> Result<Rel, AllocError>
    requires { length mask.now ≡ length rel.now.body }
    ensures { (p : Tuple → Bool) → mask.now ≡ map p rel.now.body
        → IfOk result (λ r. r ≡ restriction p rel.now) }
{
    let kept = kept_rows(alloc, rel.rows(), mask)?;
    with_rows(rel, kept)
}
