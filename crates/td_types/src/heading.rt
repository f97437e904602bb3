//! Headings as finite maps from names to types.
ghost use Rattle.std.specs.Prelude.{◌≡◌, ◌↔◌, ◌<◌, ◌^◌, IfErr, IfOk, IsTrue, [], length};
ghost use Rattle.std.specs.Prelude.{option_map};
ghost use Rattle.std.specs.Prelude.{slice_get};
ghost use Rattle.td_tree.specs.model.Outcomes.{Answers};
ghost use Rattle.td_types.specs.model.Headings.{IsFound, IsMap, IsMissing, add_missing};
ghost use Rattle.td_types.specs.model.Headings.{extended_heading, made_heading, place_of};
ghost use Rattle.td_types.specs.model.Headings.{types_with};
ghost use Rattle.td_types.specs.model.Types.{IsAscending, IsHeading, pack, type_at};
ghost use Rattle.td_types.specs.code.Views.{pairs_view, type_view};

use crate::names::repeats_a_name;
use crate::ty::Ty;
use std::alloc::{AllocError, Global};
use std::marker::Model;
use td_tree::cause::Cause;
use td_tree::fault::Fault;
use td_tree::name::Name;

/// An attribute's name and its type.
#[cycle(ty)]
#[derive(Drop)]
pub struct Attribute {
    pub(crate) name: Name,
    pub(crate) ty: Ty,
}

/// A heading, seen as its attributes in name order.
#[cycle(ty)]
#[derive(Drop)]
pub struct Heading {
    pub(crate) attributes: Vec<Attribute>,
}

impl Model for Heading {
    ghost use Rattle.std.specs.Prelude.{List, ℕ, map, length};
    ghost use Rattle.td_types.specs.code.Depths.{heading_depth};
    ghost use Rattle.td_types.specs.code.TypeCode.{heading_code};
    ghost use Rattle.td_types.specs.model.Types.{Heading, IsHeading, pack};

    ghost Value = { Heading };

    ghost coded = { heading_code };

    ghost use Rattle.td_types.specs.code.Views.{heading_view};

    ghost view = { λ a. heading_view a.attributes.items };

    ghost invariant = { λ a. IsHeading (pack (heading_view a.attributes.items)) };

    ghost size = { heading_depth };

    ghost use Rattle.td_types.specs.code.Falls.{attributes_fall};

    ghost size_decreases = { λ a h. attributes_fall a.attributes.items };
}

/// The heading of attributes whose names ascend.
fn from_sorted(alloc: Global, pairs: Vec<(Name, Ty)>) -> Result<Heading, AllocError>
    requires { IsAscending (pairs_view pairs.items) }
    ensures { IfOk result (λ h. h ≡ pairs_view pairs.items) }
{
    let mut attributes = Vec::with_capacity(alloc, pairs.len())?;
    for (name, ty) in pairs {
        name.reveal();
        ty.reveal();
        attributes.push(Attribute { name, ty })?;
    }
    Ok(Heading { attributes })
}

impl Heading {
    /// The heading without attributes.
    pub fn empty(alloc: Global) -> Heading
        ensures { result ≡ [] }
    {
        Heading {
            attributes: Vec::new(alloc),
        }
    }

    /// The heading that gives each name its type: refused where a name comes twice.
    pub fn new(alloc: Global, attributes: Vec<(Name, Ty)>) -> Result<Heading, Fault>
        ensures answer { Answers (λ h. h) result (made_heading (pairs_view attributes.items)) }
        ensures types { IfOk result (λ h. IsMap h (λ n. type_at n (pairs_view attributes.items))) }
    {
        let mut sorted = attributes;
        sorted.sort_unstable();
        if repeats_a_name(&sorted) {
            Err(Fault::Refused(Cause::Heading))
        } else {
            Ok(from_sorted(alloc, sorted)?)
        }
    }

    /// What holds of every heading. It takes no time.
    pub fn reveal(&self)
        ensures heading { IsHeading (pack self.now) }
        ensures ascending { IsAscending self.now }
        ensures small { length self.now < 2 ^ 63 }
    {
        let _ = self.attributes.len();
    }

    /// How many attributes there are.
    pub fn len(&self) -> usize
        ensures { result ≡ length self.now }
    {
        self.attributes.len()
    }

    /// Whether there is no attribute.
    pub fn is_empty(&self) -> bool
        ensures { IsTrue result ↔ (self.now ≡ []) }
    {
        self.attributes.is_empty()
    }

    /// The attribute at a place in name order.
    pub fn at(&self, place: usize) -> Option<(&Name, &Ty)>
        ensures attribute { option_map (λ a. (a.0.now, type_view a.1.now)) result ≡ slice_get
            self.now place }
        ensures ascending { IsAscending self.now }
    {
        self.reveal();
        let attribute = self.attributes.get(place)?;
        Some((&attribute.name, &attribute.ty))
    }

    /// The type of the attribute of that name.
    pub fn get(&self, name: &Name) -> Option<&Ty>
        ensures { option_map (λ t. type_view t.now) result ≡ type_at name.now self.now }
    {
        let place = self.search(name).ok()?;
        let (_, ty) = self.at(place)?;
        Some(ty)
    }

    /// Where the attribute of that name is, or else where it would be.
    fn search(&self, name: &Name) -> Result<usize, usize>
        ensures found { IfOk result (IsFound name.now self.now) }
        ensures missing { IfErr result (IsMissing name.now self.now) }
    {
        self.attributes
            .binary_search_by(|attribute| attribute.name.cmp(name))
    }

    /// How many attributes stand before the name.
    fn place_of(&self, name: &Name) -> usize
        ensures { result ≡ place_of name.now self.now }
    {
        match self.search(name) {
            Ok(place) | Err(place) => place,
        }
    }

    /// The heading with the attribute, unless it has one of that name.
    pub fn add(self, name: Name, ty: Ty) -> Result<Heading, AllocError>
        ensures { IfOk result (λ h. h ≡ add_missing self (name, type_view ty)) }
    {
        if self.get(&name).is_some() {
            return Ok(self);
        }
        ty.reveal();
        let place = self.place_of(&name);
        let mut attributes = self.attributes;
        attributes.insert(place, Attribute { name, ty })?;
        Ok(Heading { attributes })
    }

    /// The heading with one more attribute: refused where it has one of that name.
    pub fn with(self, name: Name, ty: Ty) -> Result<Heading, Fault>
        ensures answer { Answers (λ h. h) result (extended_heading self (name, type_view ty)) }
        ensures types { IfOk result (λ h. IsMap h (types_with self (name, type_view ty))) }
    {
        if self.get(&name).is_some() {
            return Err(Fault::Refused(Cause::Heading));
        }
        Ok(self.add(name, ty)?)
    }
}
