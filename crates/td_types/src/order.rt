//! The order of types and of headings, and their equality. No output shows the order.
ghost use Rattle.std.specs.Prelude.{◌≡◌, ◌↔◌, IsTrue};
ghost use Rattle.std.specs.Ordering.{eq_by_cmp};
ghost use Rattle.td_types.specs.code.TypeOrder.{ty_cmp};
ghost use Rattle.td_types.specs.model.Types.{attrs_cmp, heading_cmp, pack, type_cmp, type_kind};
ghost use Rattle.td_types.specs.code.Views.{heading_view, type_view};

use crate::heading::{Attribute, Heading};
use crate::ty::Ty;
use std::cmp::Ordering;

impl Ty {
    /// The number of the type's kind among the kinds.
    pub(crate) fn kind_number(&self) -> u8
        ensures { result ≡ type_kind (type_view self.now) }
    {
        match self {
            Ty::Bool => 0,
            Ty::Int => 1,
            Ty::Text => 2,
            Ty::User(_) => 3,
            Ty::Tup(_) => 4,
            Ty::Rel(_) => 5,
        }
    }
}

#[cycle(compare)]
fn compare_types(a: &Ty, b: &Ty) -> Ordering
    ensures { result ≡ type_cmp (type_view a.now) (type_view b.now) }
{
    match (a, b) {
        (Ty::User(m), Ty::User(n)) => m.cmp(n),
        (Ty::Tup(g), Ty::Tup(h)) => compare_headings(g, h),
        (Ty::Rel(g), Ty::Rel(h)) => compare_headings(g, h),
        _ => a.kind_number().cmp(&b.kind_number()),
    }
}

#[cycle(compare)]
fn compare_headings(a: &Heading, b: &Heading) -> Ordering
    ensures { result ≡ attrs_cmp (pack a.now) (pack b.now) }
{
    compare_attributes(&a.attributes, &b.attributes)
}

#[cycle(compare)]
fn compare_attributes(a: &[Attribute], b: &[Attribute]) -> Ordering
    ensures { result ≡ attrs_cmp (pack (heading_view a.now)) (pack (heading_view b.now)) }
{
    let mut place = 0;
    for x in a {
        if place == b.len() {
            return Ordering::Greater;
        }
        let y = &b[place];
        match x.name.cmp(&y.name) {
            Ordering::Equal => {}
            order => return order,
        }
        match compare_types(&x.ty, &y.ty) {
            Ordering::Equal => {}
            order => return order,
        }
        place += 1;
    }
    if place == b.len() {
        Ordering::Equal
    } else {
        Ordering::Less
    }
}

impl PartialEq for Ty {
    ghost use Rattle.td_types.specs.code.TypeOrder.{ty_eq_laws};

    ghost eq = { eq_by_cmp ty_cmp };

    ghost laws = { ty_eq_laws };

    fn eq(&self, other: &Ty) -> bool
        ensures test { result ≡ eq_by_cmp ty_cmp self.now other.now }
        ensures same { IsTrue result ↔ (type_view self.now ≡ type_view other.now) }
    {
        self.cmp(other) == Ordering::Equal
    }
}

impl Eq for Ty {
    ghost use Rattle.td_types.specs.code.TypeOrder.{ty_eq_equiv};

    ghost laws = { ty_eq_equiv };
}

impl PartialOrd for Ty {
    ghost use Rattle.std.specs.Ordering.{as_partial_cmp};
    ghost use Rattle.td_types.specs.code.TypeOrder.{ty_cmp, ty_partial_laws};

    ghost partial_cmp = { as_partial_cmp ty_cmp };

    ghost laws = { ty_partial_laws };

    fn partial_cmp(&self, other: &Ty) -> Option<Ordering> {
        Some(self.cmp(other))
    }
}

impl Ord for Ty {
    ghost use Rattle.std.specs.Prelude.{refl};
    ghost use Rattle.td_types.specs.code.TypeOrder.{ty_cmp, ty_cmp_total};

    ghost cmp = { ty_cmp };

    ghost total = { ty_cmp_total };

    ghost matches_partial_cmp = { λ x y. refl };

    ghost matches_eq = { λ x y. refl };

    fn cmp(&self, other: &Ty) -> Ordering {
        compare_types(self, other)
    }
}

impl Heading {
    /// Which heading stands first.
    pub fn compare(&self, heading: &Heading) -> Ordering
        ensures { result ≡ attrs_cmp (pack self.now) (pack heading.now) }
    {
        compare_headings(self, heading)
    }
}

impl PartialEq for Heading {
    ghost use Rattle.td_types.specs.code.TypeOrder.{heading_eq_laws};

    ghost eq = { eq_by_cmp heading_cmp };

    ghost laws = { heading_eq_laws };

    fn eq(&self, other: &Heading) -> bool
        ensures test { result ≡ eq_by_cmp heading_cmp self.now other.now }
        ensures same { IsTrue result ↔ (self.now ≡ other.now) }
    {
        self.compare(other) == Ordering::Equal
    }
}

impl Eq for Heading {
    ghost use Rattle.td_types.specs.code.TypeOrder.{heading_eq_equiv};

    ghost laws = { heading_eq_equiv };
}

impl PartialOrd for Heading {
    ghost use Rattle.std.specs.Ordering.{as_partial_cmp};
    ghost use Rattle.td_types.specs.code.TypeOrder.{heading_partial_laws};

    ghost partial_cmp = { as_partial_cmp heading_cmp };

    ghost laws = { heading_partial_laws };

    fn partial_cmp(&self, other: &Heading) -> Option<Ordering> {
        Some(self.compare(other))
    }
}

impl Ord for Heading {
    ghost use Rattle.std.specs.Prelude.{refl};
    ghost use Rattle.td_types.specs.code.TypeOrder.{heading_cmp_total};

    ghost cmp = { heading_cmp };

    ghost total = { heading_cmp_total };

    ghost matches_partial_cmp = { λ x y. refl };

    ghost matches_eq = { λ x y. refl };

    fn cmp(&self, other: &Heading) -> Ordering {
        compare_headings(self, other)
    }
}
