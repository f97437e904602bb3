//! Where an expression stands.
ghost use Rattle.std.specs.Prelude.{◌≡◌, ◌<◌, ◌^◌, IfOk, option_map};
ghost use Rattle.td_check.specs.code.PlaceViews.{scope_at, within_all};
ghost use Rattle.td_check.specs.code.ScopeCode.{seen_view};
ghost use Rattle.td_check.specs.model.Scopes.{entered_with, innermost, kind_and_heading};
ghost use Rattle.td_check.specs.model.Scopes.{known_relvar};
ghost use Rattle.td_types.specs.code.Views.{type_view};

use crate::scope::{Kind, Scope};
use std::alloc::{AllocError, Global};
use td_tree::name::Name;
use td_types::heading::Heading;
use td_types::table::TypeTable;
use td_types::ty::Ty;

/// A scope and, within it, the headings of the tuples to which an expression is applied.
#[derive(Drop)]
pub(crate) struct Place<'s, 't, 'h> {
    scope: &'s Scope<'t>,
    /// The innermost is the last.
    inner: Vec<&'h Heading>,
}

impl<'s, 't, 'h> Place<'s, 't, 'h> {
    /// Where an expression stands in the scope itself.
    pub(crate) fn outside(scope: &'s Scope<'t>) -> Place<'s, 't, 'h>
        ensures { scope_at result ≡ scope.now }
    {
        Place {
            scope,
            inner: Vec::new(scope.allocator()),
        }
    }

    /// The headings, with room for so many more.
    fn inner_with_room<'n>(&self, more: usize) -> Result<Vec<&'n Heading>, AllocError>
    where
        'h: 'n,
        requires { more < 2 ^ 63 }
        ensures { IfOk result (λ headings. headings.items ≡ self.now.inner.items) }
    {
        let mut inner = Vec::with_capacity(self.allocator(), self.inner.len() + more)?;
        for outer in &self.inner {
            inner.push(*outer)?;
        }
        Ok(inner)
    }

    /// Where an expression stands that is applied to each tuple of the heading.
    pub(crate) fn inside<'n>(&self, heading: &'n Heading) -> Result<Place<'s, 't, 'n>, AllocError>
    where
        'h: 'n,
        ensures { IfOk result (λ p. scope_at p ≡ entered_with heading.now (scope_at self.now)) }
    {
        let mut inner = self.inner_with_room(1)?;
        inner.push(heading)?;
        Ok(Place {
            scope: self.scope,
            inner,
        })
    }

    /// Where an expression stands within a tuple of each of the headings: of two attributes of one
    /// name it sees that of the later heading.
    pub(crate) fn inside_all<'n>(
        &self,
        headings: &'n [Heading],
    ) -> Result<Place<'s, 't, 'n>, AllocError>
    where
        'h: 'n,
        ensures { IfOk result (λ p. scope_at p ≡ within_all headings.now (scope_at self.now)) }
    {
        let mut inner = self.inner_with_room(headings.len())?;
        for heading in headings {
            inner.push(heading)?;
        }
        Ok(Place {
            scope: self.scope,
            inner,
        })
    }

    /// Where the memory is from.
    pub(crate) fn allocator(&self) -> Global {
        self.scope.allocator()
    }

    /// The declared types.
    pub(crate) fn types(&self) -> &TypeTable
        ensures { result.now ≡ (scope_at self.now).types }
    {
        self.scope.types()
    }

    /// The type of the innermost attribute of the name.
    pub(crate) fn attribute(&self, name: &Name) -> Option<&Ty>
        ensures { option_map (λ t. type_view t.now) result
            ≡ innermost name.now (scope_at self.now).entered }
    {
        for heading in self.inner.iter().rev() {
            if let Some(ty) = heading.get(name) {
                return Some(ty);
            }
        }
        self.scope.attribute(name)
    }

    /// What is known of the relvar of the name.
    pub(crate) fn relvar(&self, name: &Name) -> Option<(Kind, &Heading)>
        ensures { option_map seen_view result
            ≡ option_map kind_and_heading (known_relvar (scope_at self.now) name.now) }
    {
        self.scope.relvar(name)
    }
}
