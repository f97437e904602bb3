//! Operations that make a heading of headings: each refuses by the cause of headings, or wants
//! memory.
ghost use Rattle.std.specs.Prelude.{◌≡◌, IfOk};
ghost use Rattle.td_tree.specs.model.Outcomes.{Answers};
ghost use Rattle.td_types.specs.model.Headings.{IsMap, agree, common_heading, has_attributes};
ghost use Rattle.td_types.specs.model.Headings.{has_projection, have_no_common, is_closable};
ghost use Rattle.td_types.specs.model.Headings.{is_part, outside, projected_heading};
ghost use Rattle.td_types.specs.model.Headings.{reduced_heading, types_among, types_in_both};
ghost use Rattle.td_types.specs.model.Headings.{types_in_either, types_outside, types_without};
ghost use Rattle.td_types.specs.model.Headings.{united_heading, without_attribute};

use crate::heading::{Attribute, Heading};
use crate::names::{are_distinct, is_among};
use std::alloc::AllocError;
use td_tree::cause::Cause;
use td_tree::fault::Fault;
use td_tree::name::Name;

impl Heading {
    /// Whether there is an attribute of each name.
    pub fn has_all(&self, names: &[Name]) -> bool
        ensures { result ≡ has_attributes names.now self.now }
    {
        names.iter().all(|name| self.get(name).is_some())
    }

    /// Whether no name has two types here and there.
    pub fn agrees_with(&self, other: &Heading) -> bool
        ensures { result ≡ agree self.now other.now }
    {
        for attribute in &self.attributes {
            if let Some(ty) = other.get(&attribute.name) {
                if *ty != attribute.ty {
                    return false;
                }
            }
        }
        true
    }

    /// Whether there is no attribute that the other has too.
    pub fn is_apart_from(&self, other: &Heading) -> bool
        ensures { result ≡ have_no_common self.now other.now }
    {
        self.attributes
            .iter()
            .all(|attribute| other.get(&attribute.name).is_none())
    }

    /// Whether there is no attribute, but for that of the name, that the other has too.
    pub fn is_apart_but_for(&self, name: &Name, other: &Heading) -> bool
        ensures { result ≡ have_no_common (without_attribute name.now self.now) other.now }
    {
        self.attributes.iter().all(|attribute| {
            attribute.name == *name || other.get(&attribute.name).is_none()
        })
    }

    /// Whether each attribute is one of the other, with its type.
    pub fn is_part_of(&self, other: &Heading) -> bool
        ensures { result ≡ is_part self.now other.now }
    {
        for attribute in &self.attributes {
            match other.get(&attribute.name) {
                Some(ty) if *ty == attribute.ty => {}
                _ => return false,
            }
        }
        true
    }

    /// Whether there are two attributes, of one type.
    pub fn is_closable(&self) -> bool
        ensures { result ≡ is_closable self.now }
    {
        match (self.at(0), self.at(1)) {
            (Some((_, first)), Some((_, second))) => self.len() == 2 && first == second,
            _ => false,
        }
    }

    /// The heading without the attribute of that name: refused where it has none.
    pub fn without(&self, name: &Name) -> Result<Heading, Fault>
        ensures answer { Answers (λ h. h) result (reduced_heading name.now self.now) }
        ensures types { IfOk result (λ h. IsMap h (types_without name.now self.now)) }
    {
        if self.get(name).is_none() {
            return Err(Fault::Refused(Cause::Heading));
        }
        let mut attributes = Vec::new(*self.attributes.allocator());
        for attribute in &self.attributes {
            if attribute.name != *name {
                attributes.push(attribute.try_clone()?)?;
            }
        }
        Ok(Heading { attributes })
    }

    /// Whether there is a projection on the names: each is there, and none comes twice.
    pub fn has_projection(&self, names: &[Name]) -> bool
        ensures { result ≡ has_projection names.now self.now }
    {
        self.has_all(names) && are_distinct(names)
    }

    /// The attributes of those names: refused where one is not there or comes twice.
    pub fn project(&self, names: &[Name]) -> Result<Heading, Fault>
        ensures answer { Answers (λ h. h) result (projected_heading names.now self.now) }
        ensures types { IfOk result (λ h. IsMap h (types_among names.now self.now)) }
    {
        if !self.has_projection(names) {
            return Err(Fault::Refused(Cause::Heading));
        }
        let mut attributes = Vec::new(*self.attributes.allocator());
        for attribute in &self.attributes {
            if is_among(&attribute.name, names) {
                attributes.push(attribute.try_clone()?)?;
            }
        }
        Ok(Heading { attributes })
    }

    /// The attributes that both have: refused where one has two types.
    pub fn common(&self, other: &Heading) -> Result<Heading, Fault>
        ensures answer { Answers (λ h. h) result (common_heading self.now other.now) }
        ensures types { IfOk result (λ h. IsMap h (types_in_both self.now other.now)) }
    {
        if !self.agrees_with(other) {
            return Err(Fault::Refused(Cause::Heading));
        }
        let mut attributes = Vec::new(*self.attributes.allocator());
        for attribute in &self.attributes {
            if other.get(&attribute.name).is_some() {
                attributes.push(attribute.try_clone()?)?;
            }
        }
        Ok(Heading { attributes })
    }

    /// The attributes that the other lacks.
    pub fn lacking(&self, other: &Heading) -> Result<Heading, AllocError>
        ensures heading { IfOk result (λ h. h ≡ outside other.now self.now) }
        ensures types { IfOk result (λ h. IsMap h (types_outside other.now self.now)) }
    {
        let mut attributes = Vec::new(*self.attributes.allocator());
        for attribute in &self.attributes {
            if other.get(&attribute.name).is_none() {
                attributes.push(attribute.try_clone()?)?;
            }
        }
        Ok(Heading { attributes })
    }

    /// The attributes that either has: refused where one has two types.
    pub fn union(&self, other: &Heading) -> Result<Heading, Fault>
        ensures answer { Answers (λ h. h) result (united_heading self.now other.now) }
        ensures types { IfOk result (λ h. IsMap h (types_in_either self.now other.now)) }
    {
        if !self.agrees_with(other) {
            return Err(Fault::Refused(Cause::Heading));
        }
        let mut union = self.try_clone()?;
        for attribute in &other.attributes {
            let Attribute { name, ty } = attribute.try_clone()?;
            union = union.add(name, ty)?;
        }
        Ok(union)
    }
}
