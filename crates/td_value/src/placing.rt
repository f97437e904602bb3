//! Tuples of values that stand at places.
ghost use Rattle.std.specs.Prelude.{◌≡◌, ◌<◌, ◌++◌, OnErr, OnOk, Some, length, take};
ghost use Rattle.std.specs.List.{All, slice_get};
ghost use Rattle.td_value.specs.code.Places.{values_at};
ghost use Rattle.td_value.specs.code.Blocks.{with_row};

use crate::tuples::Tuples;
use crate::value::Value;
use std::alloc::AllocError;

/// The value at the place in those of the first, followed by those of the second.
pub fn value_at<'a>(place: usize, first: &'a [Value], second: &'a [Value]) -> &'a Value
    requires { place < length (first.now ++ second.now) }
    ensures { slice_get (first.now ++ second.now) place ≡ Some result.now }
{
    if place < first.len() {
        &first[place]
    } else {
        &second[place - first.len()]
    }
}

/// Puts copies of the values at the places in those of the first, followed by those of the second,
/// after the others. Where memory is refused some of them may have been put.
fn put_placed(
    places: &[usize],
    first: &[Value],
    second: &[Value],
    cells: &mut Vec<Value>,
) -> Result<(), AllocError>
    requires { All (λ place. place < length (first.now ++ second.now)) places.now }
    ensures put { OnOk result (cells.new.items
        ≡ cells.old.items ++ values_at places.now (first.now ++ second.now)) }
    ensures kept { OnErr result (take (length cells.old.items) cells.new.items ≡ cells.old.items) }
{
    for place in places {
        let value = value_at(*place, first, second).try_clone()?;
        cells.push(value)?;
    }
    Ok(())
}

impl Tuples {
    /// Takes one more tuple: of the values at the places in those of the first, followed by those
    /// of the second.
    pub fn push_placed(
        &mut self,
        places: &[usize],
        first: &[Value],
        second: &[Value],
    ) -> Result<(), AllocError>
        requires long { length places.now ≡ length self.old.names }
        requires range { All (λ place. place < length (first.now ++ second.now)) places.now }
        ensures pushed { OnOk result (self.new
            ≡ with_row (values_at places.now (first.now ++ second.now)) self.old) }
        ensures same { OnErr result (self.new ≡ self.old) }
    {
        let Some(count) = self.count.checked_add(1) else {
            return Err(AllocError);
        };
        let before = self.cells.len();
        match put_placed(places, first, second, &mut self.cells) {
            Ok(()) => {
                self.count = count;
                Ok(())
            }
            Err(refused) => {
                self.cells.truncate(before);
                Err(refused)
            }
        }
    }
}
