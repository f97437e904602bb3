//! The names that were met: one text stands for all places of a name.
ghost use Rattle.std.specs.Prelude.{◌≡◌, Some, IfOk, IfSome};
ghost use Rattle.td_tree.specs.model.Pieces.{kind_of};
ghost use Rattle.td_tree.specs.model.Symbols.{symbols};

use crate::word::name_of;
use std::alloc::{AllocError, Global};
use td_tree::name::Name;
use td_tree::token::Kind;

/// How many names are kept at most.
const MOST: usize = 256;

/// Among how many of them, those that were met first, a name is looked for that does not come where
/// it is expected.
const SEARCHED: usize = 16;

/// Names in the order in which they were met. Most often they come again in that order, as those of
/// one tuple after another do.
#[derive(Drop)]
pub struct SharedNames {
    names: Vec<Name>,
    /// Where the next name is expected.
    next: usize,
    /// Where the last one was that was looked for, as the first name of a tuple is.
    first: usize,
}

impl SharedNames {
    /// None.
    pub fn new(alloc: Global) -> SharedNames {
        SharedNames {
            names: Vec::new(alloc),
            next: 0,
            first: 0,
        }
    }

    /// The name with these bytes, if it is at this place.
    fn at(&self, place: usize, text: &[u8]) -> Option<&Name>
        ensures { IfSome result (λ n. n.now ≡ text.now) }
    {
        let name = self.names.get(place)?;
        if name.as_str().as_bytes() == text {
            Some(name)
        } else {
            None
        }
    }

    /// Where the name with these bytes is among those that were met first, or where it would come.
    fn place_of(&self, text: &[u8]) -> usize {
        for place in 0..self.names.len().min(SEARCHED) {
            if self.at(place, text).is_some() {
                return place;
            }
        }
        self.names.len()
    }

    /// Keeps a name behind the others; where they are too many it is the first again.
    fn keep(&mut self, name: Name) -> Result<(), AllocError> {
        if self.names.len() >= MOST {
            self.names.clear();
        }
        self.names.push(name)?;
        Ok(())
    }

    /// The name that a token with these bytes is, which does not come where it is expected.
    fn sought(&mut self, alloc: Global, text: &[u8]) -> Result<Name, AllocError>
        requires { kind_of (symbols text.now) ≡ Some Kind.Name }
        ensures { IfOk result (λ n. n ≡ text.now) }
    {
        let place = self.place_of(text);
        self.first = place;
        self.next = place.wrapping_add(1);
        if let Some(name) = self.at(place, text) {
            return name.try_clone();
        }
        let name = name_of(alloc, text)?;
        self.keep(name.try_clone()?)?;
        Ok(name)
    }

    /// The name that a token with these bytes is.
    pub fn name_of(&mut self, alloc: Global, text: &[u8]) -> Result<Name, AllocError>
        requires { kind_of (symbols text.now) ≡ Some Kind.Name }
        ensures { IfOk result (λ n. n ≡ text.now) }
    {
        if let Some(name) = self.at(self.next, text) {
            let name = name.try_clone();
            self.next = self.next.wrapping_add(1);
            return name;
        }
        if let Some(name) = self.at(self.first, text) {
            let name = name.try_clone();
            self.next = self.first.wrapping_add(1);
            return name;
        }
        self.sought(alloc, text)
    }
}
