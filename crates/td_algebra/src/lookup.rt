//! Rows found by their values on the attributes that two headings have in common.
ghost use Rattle.std.specs.Prelude.{◌≡◌, ◌<◌, ◌^◌, IfOk, Some, length};
ghost use Rattle.std.specs.List.{All, slice_get};
ghost use Rattle.td_algebra.specs.code.Lookups.{ArePlacesOf, AreWithin, first_place, has_part};
ghost use Rattle.td_algebra.specs.code.Lookups.{has_partner_in, part_of, partners_in};
ghost use Rattle.td_types.specs.model.Headings.{has_attribute};
ghost use Rattle.td_types.specs.model.Types.{Attribute, attribute_names};
ghost use Rattle.td_value.specs.code.Views.{values_of};

use crate::part::Part;
use std::alloc::{AllocError, Global};
use std::collections::HashMap;
use std::marker::Model;
use td_types::heading::Heading;
use td_value::tuple::Tuple;

/// Whether the other heading has an attribute of the name that stands at the place.
fn is_common(heading: &Heading, place: usize, other: &Heading) -> bool
    ensures { (a : Attribute) → slice_get heading.now place ≡ Some a
        → result ≡ has_attribute a.0 other.now }
{
    match heading.at(place) {
        Some((name, _)) => other.get(name).is_some(),
        None => false,
    }
}

/// The places in the heading of the attributes whose names the other has too.
pub fn common_places(
    alloc: Global,
    heading: &Heading,
    other: &Heading,
) -> Result<Vec<usize>, AllocError>
    ensures { IfOk result (λ places.
        ArePlacesOf (attribute_names other.now) heading.now places.items) }
{
    let mut places = Vec::with_capacity(alloc, heading.len())?;
    for place in 0..heading.len() {
        if is_common(heading, place, other) {
            places.push(place)?;
        }
    }
    Ok(places)
}

/// Rows with a table by their values at places: it has the place of the first row of given values,
/// and a list has for each row the place of the next one of the same values.
#[derive(Drop)]
pub struct Lookup<'a> {
    places: &'a [usize],
    rows: &'a [Tuple],
    firsts: HashMap<Part<'a>, usize>,
    next: Vec<Option<usize>>,
}

impl<'a> Model for Lookup<'a> {
    ghost use Rattle.std.specs.Prelude.{◌≡◌, ℕ, List};
    ghost use Rattle.std.specs.Coded.{coded×, coded_list, coded_ℕ};
    ghost use Rattle.td_value.specs.code.ValueCode.{tuple_code};
    ghost use Rattle.td_value.specs.model.Values.{Tuple};

    ghost Value = { List ℕ × List Tuple };

    ghost coded = { coded× (coded_list coded_ℕ) (coded_list tuple_code) };

    ghost use Rattle.td_algebra.specs.code.Lookups.{HasFirsts, next_places};

    ghost view = { λ a. (a.places.now, a.rows.now) };

    ghost invariant = { λ a. HasFirsts a.places.now 0 a.rows.now a.firsts
        × (a.next.items ≡ next_places a.places.now 0 a.rows.now) };
}

impl<'a> Lookup<'a> {
    /// The rows by their values at the places.
    pub fn new(
        alloc: Global,
        places: &'a [usize],
        rows: &'a [Tuple],
    ) -> Result<Lookup<'a>, AllocError>
        requires { All (λ t. AreWithin places.now (values_of t)) rows.now }
        ensures { IfOk result (λ lookup. lookup ≡ (places.now, rows.now)) }
    {
        let mut firsts = HashMap::with_capacity(alloc, rows.len())?;
        let mut next = Vec::with_capacity(alloc, rows.len())?;
        let mut place = rows.len();
        while place > 0 {
            place -= 1;
            let part = Part::new(rows[place].values(), places);
            next.push(firsts.insert(part, place)?)?;
        }
        next.reverse();
        Ok(Lookup {
            places,
            rows,
            firsts,
            next,
        })
    }

    /// The place of the first row that has the tuple's values at the places.
    fn first(&self, places: &[usize], tuple: &Tuple) -> Option<usize>
        requires { AreWithin places.now (values_of tuple.now) }
        ensures { result ≡ first_place (has_part self.now.0 (part_of places.now tuple.now)) 0
            self.now.1 }
    {
        let part = Part::new(tuple.values(), places);
        self.firsts.get(&part).copied()
    }

    /// Whether a row has the tuple's values at the places.
    pub fn has_partner(&self, places: &[usize], tuple: &Tuple) -> bool
        requires { AreWithin places.now (values_of tuple.now) }
        ensures { result ≡ has_partner_in self.now places.now tuple.now }
    {
        self.first(places, tuple).is_some()
    }

    /// The rows that have the tuple's values at the places, in their order.
    pub fn partners(&'a self, places: &[usize], tuple: &Tuple) -> Partners<'a>
        requires { AreWithin places.now (values_of tuple.now) }
        ensures rows { result ≡ partners_in self.now places.now tuple.now }
        ensures fits { length result < 2 ^ 64 }
    {
        let _ = self.rows.len();
        Partners {
            lookup: self,
            place: self.first(places, tuple),
        }
    }
}

/// The row at a place of a look-up, and those after it that have its values, seen as the list of
/// the rows that are still to come.
#[derive(Drop)]
pub struct Partners<'a> {
    lookup: &'a Lookup<'a>,
    place: Option<usize>,
}

impl<'a> Model for Partners<'a> {
    ghost use Rattle.std.specs.Prelude.{◌<◌, List, IfSome, length};
    ghost use Rattle.std.specs.Coded.{coded_list};
    ghost use Rattle.td_value.specs.code.ValueCode.{tuple_code};
    ghost use Rattle.td_value.specs.model.Values.{Tuple};

    ghost Value = { List Tuple };

    ghost coded = { coded_list tuple_code };

    ghost use Rattle.td_algebra.specs.code.Lookups.{like_row_at};

    ghost view = { λ a. like_row_at a.lookup.now a.place };

    ghost invariant = { λ a. IfSome a.place (λ place. place < length a.lookup.now.1) };
}

impl<'a> Iterator for Partners<'a> {
    ghost use Rattle.std.specs.Iterator.{item_count, YieldsFirstRef};

    type Item = &'a Tuple;

    ghost next_gives = { YieldsFirstRef (λ s. s) };

    ghost remaining = { item_count (λ s. s) };

    fn next(&mut self) -> Option<&'a Tuple> {
        let place = self.place?;
        let lookup = self.lookup;
        self.place = lookup.next[place];
        Some(&lookup.rows[place])
    }
}
