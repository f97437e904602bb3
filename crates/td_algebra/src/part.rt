//! The values of a row at places.
ghost use Rattle.std.specs.Prelude.{◌≡◌};
ghost use Rattle.td_algebra.specs.code.Lookups.{AreWithin, are_same, values_at};

use std::hash::{Hash, Hasher};
use std::marker::Model;
use td_value::value::Value;

/// The values of a row at places, seen as the list of them. It borrows both.
#[derive(Drop)]
pub(crate) struct Part<'a> {
    values: &'a [Value],
    places: &'a [usize],
}

impl<'a> Model for Part<'a> {
    ghost use Rattle.std.specs.Prelude.{List};
    ghost use Rattle.std.specs.Coded.{coded_list};
    ghost use Rattle.td_algebra.specs.code.Lookups.{AreWithin, values_at};
    ghost use Rattle.td_value.specs.code.ValueCode.{val_code};
    ghost use Rattle.td_value.specs.model.Values.{Val};

    ghost Value = { List Val };

    ghost coded = { coded_list val_code };

    ghost view = { λ a. values_at a.places.now a.values.now };

    ghost invariant = { λ a. AreWithin a.places.now a.values.now };
}

/// Whether the values at the places are the same as the others at theirs.
fn are_same_at(values: &[Value], places: &[usize], others: &[Value], other_places: &[usize]) -> bool
    requires own { AreWithin places.now values.now }
    requires others { AreWithin other_places.now others.now }
    ensures { result ≡ are_same (values_at places.now values.now)
        (values_at other_places.now others.now) }
{
    if places.len() != other_places.len() {
        return false;
    }
    for index in 0..places.len() {
        if values[places[index]] != others[other_places[index]] {
            return false;
        }
    }
    true
}

impl<'a> Part<'a> {
    /// The values at the places.
    pub(crate) fn new(values: &'a [Value], places: &'a [usize]) -> Part<'a>
        requires { AreWithin places.now values.now }
        ensures { result ≡ values_at places.now values.now }
    {
        Part { values, places }
    }
}

impl<'a> PartialEq for Part<'a> {
    ghost use Rattle.std.specs.Cmp.{partial_equiv_from_equiv};
    ghost use Rattle.td_algebra.specs.code.Lookups.{are_same};
    ghost use Rattle.td_algebra.specs.code.Parts.{same_equiv};

    ghost eq = { are_same };

    ghost laws = { partial_equiv_from_equiv same_equiv };

    fn eq(&self, other: &Part<'a>) -> bool {
        are_same_at(self.values, self.places, other.values, other.places)
    }
}

impl<'a> Eq for Part<'a> {
    ghost use Rattle.td_algebra.specs.code.Parts.{same_equiv};

    ghost laws = { same_equiv };
}

impl<'a> Hash for Part<'a> {
    ghost use Rattle.td_algebra.specs.code.Parts.{fed_values, same_fed_alike};

    ghost hash_input = { fed_values };

    ghost respects_eq = { same_fed_alike };

    fn hash<H: Hasher>(&self, state: &mut H) {
        for place in self.places {
            self.values[*place].hash(state);
        }
    }
}
