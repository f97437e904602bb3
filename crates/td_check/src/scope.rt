//! What is known where an expression stands.
ghost use Rattle.std.specs.Prelude.{◌≡◌, ◌↔◌, [], IfOk, IsTrue, OnErr, OnOk, is_some, not};
ghost use Rattle.std.specs.Prelude.{option_map, reverse};
ghost use Rattle.td_check.specs.code.LentScopes.{lent_scope};
ghost use Rattle.td_check.specs.code.ScopeCode.{lent_constraints, lent_relvars, seen_view};
ghost use Rattle.td_check.specs.model.Scopes.{entered_with, innermost, kind_and_heading};
ghost use Rattle.td_check.specs.model.Scopes.{known_relvar, knows_constraint, relvar_in, scope_of};
ghost use Rattle.td_check.specs.model.Scopes.{with_known_constraint, with_known_relvar};
ghost use Rattle.td_check.specs.model.Scopes.{without_innermost};
ghost use Rattle.td_types.specs.model.Headings.{has_name};
ghost use Rattle.td_types.specs.code.Views.{type_view};

use crate::declared::Declared;
use indexmap::{IndexMap, IndexSet};
use std::alloc::{AllocError, Global};
use std::marker::Model;
use td_tree::name::Name;
use td_types::heading::Heading;
use td_types::table::TypeTable;
use td_types::ty::Ty;

/// Whether a relvar is base or virtual.
#[derive(Clone, Copy, Debug, PartialEq, Eq)]
pub enum Kind {
    /// It holds a relation of its own.
    Base,
    /// It is the value of an expression.
    Virtual,
}

/// What is known of a relvar beside its name.
#[derive(Drop)]
struct KindAndHeading {
    kind: Kind,
    heading: Heading,
}

/// The declared types, the relvars, the constraints' names, and the headings of tuples in scope.
#[derive(Drop)]
pub struct Scope<'a> {
    types: &'a TypeTable,
    /// What is declared, and how many of its virtual relvars are known.
    lent: Option<(&'a Declared, usize)>,
    /// The relvars that are known beside those of `lent`, and come after them.
    relvars: IndexMap<Name, KindAndHeading>,
    constraints: IndexSet<Name>,
    /// The innermost is the last.
    entered: Vec<Heading>,
}

impl<'a> Model for Scope<'a> {
    ghost use Rattle.std.specs.Prelude.{◌++◌, reverse};
    ghost use Rattle.td_check.specs.code.ScopeCode.{lent_constraints, lent_relvars};
    ghost use Rattle.td_check.specs.code.ScopeCode.{relvars_view, scope_code};
    ghost use Rattle.td_check.specs.model.Scopes.{Scope};

    ghost Value = { Scope };

    ghost coded = { scope_code };

    ghost view = { λ a. record {
      types = a.types.now;
      relvars = lent_relvars a.lent ++ relvars_view a.relvars.entries;
      constraints = lent_constraints a.lent ++ a.constraints.keys;
      entered = reverse a.entered.items;
    } };
}

/// What is known of the relvar of the name by what is lent.
fn lent_relvar<'a>(lent: Option<(&'a Declared, usize)>, name: &Name) -> Option<(Kind, &'a Heading)>
    ensures { option_map seen_view result
        ≡ option_map kind_and_heading (relvar_in name.now (lent_relvars lent.entry)) }
{
    let (declared, virtuals) = lent?;
    declared.relvar(name, virtuals)
}

/// Whether there is a constraint of the name in what is lent.
fn knows_lent_constraint(lent: Option<(&Declared, usize)>, name: &Name) -> bool
    ensures { result ≡ has_name name.now (lent_constraints lent.entry) }
{
    match lent {
        Some((declared, _)) => declared.constraints.contains(name),
        None => false,
    }
}

impl<'a> Scope<'a> {
    /// Where these types alone are known. It takes no memory.
    pub fn new(alloc: Global, types: &'a TypeTable) -> Scope<'a>
        ensures { result ≡ scope_of types.now }
    {
        Scope {
            types,
            lent: None,
            relvars: IndexMap::new(alloc),
            constraints: IndexSet::new(alloc),
            entered: Vec::new(alloc),
        }
    }

    /// Where the types, the base relvars, the constraints and so many of the virtual relvars are
    /// known. It takes no memory.
    pub fn over_declared(
        alloc: Global,
        types: &'a TypeTable,
        declared: &'a Declared,
        virtuals: usize,
    ) -> Scope<'a>
        ensures { result ≡ lent_scope types.now declared.now virtuals }
    {
        Scope {
            types,
            lent: Some((declared, virtuals)),
            relvars: IndexMap::new(alloc),
            constraints: IndexSet::new(alloc),
            entered: Vec::new(alloc),
        }
    }

    /// Whether there is a relvar of the name, base or virtual.
    pub fn knows_relvar(&self, name: &Name) -> bool
        ensures { result ≡ is_some (known_relvar self.now name.now) }
    {
        self.relvar(name).is_some()
    }

    /// Whether there is a constraint of the name.
    pub fn knows_constraint(&self, name: &Name) -> bool
        ensures { result ≡ knows_constraint name.now self.now }
    {
        knows_lent_constraint(self.lent, name) || self.constraints.contains(name)
    }

    /// The scope with one more relvar, of a name that no relvar has.
    pub fn with_relvar(
        self,
        name: Name,
        kind: Kind,
        heading: Heading,
    ) -> Result<Scope<'a>, AllocError>
        requires new { IsTrue (not (is_some (known_relvar self name))) }
        ensures { IfOk result (λ s. s ≡ with_known_relvar name kind heading self.entry) }
    {
        let mut scope = self;
        scope
            .relvars
            .insert(name, KindAndHeading { kind, heading })?;
        Ok(scope)
    }

    /// The scope with one more constraint, of a name that no constraint has.
    pub fn with_constraint(self, name: Name) -> Result<Scope<'a>, AllocError>
        requires new { IsTrue (not (knows_constraint name self)) }
        ensures { IfOk result (λ s. s ≡ with_known_constraint name self.entry) }
    {
        let mut scope = self;
        scope.constraints.insert(name)?;
        Ok(scope)
    }

    /// Goes into what is applied to each tuple of the heading.
    pub fn enter(&mut self, heading: Heading) -> Result<(), AllocError>
        ensures entered { OnOk result (self.new ≡ entered_with heading self.old) }
        ensures unchanged { OnErr result (self.new ≡ self.old) }
    {
        self.entered.push(heading)?;
        Ok(())
    }

    /// Goes out of what was entered last. It takes no memory.
    pub fn leave(&mut self)
        requires entered { self.old.entered ≡ [] → ⊥ }
        ensures { self.new ≡ without_innermost self.old }
    {
        self.entered.pop();
    }

    /// The headings of the tuples in scope, the innermost last.
    pub fn headings(&self) -> &[Heading]
        ensures { reverse result.now ≡ self.now.entered }
    {
        &self.entered
    }

    /// Where the scope's memory is from.
    pub(crate) fn allocator(&self) -> Global {
        *self.entered.allocator()
    }

    /// The declared types.
    pub(crate) fn types(&self) -> &TypeTable
        ensures { result.now ≡ self.now.types }
    {
        self.types
    }

    /// The type of the innermost attribute of the name. It takes no memory.
    pub fn attribute(&self, name: &Name) -> Option<&Ty>
        ensures { option_map (λ t. type_view t.now) result ≡ innermost name.now self.now.entered }
    {
        for heading in self.entered.iter().rev() {
            if let Some(ty) = heading.get(name) {
                return Some(ty);
            }
        }
        None
    }

    /// The kind and heading of the relvar of the name, whatever attributes are in scope. It takes
    /// no memory.
    pub fn relvar(&self, name: &Name) -> Option<(Kind, &Heading)>
        ensures { option_map seen_view result
            ≡ option_map kind_and_heading (known_relvar self.now name.now) }
    {
        if let Some(relvar) = lent_relvar(self.lent, name) {
            return Some(relvar);
        }
        let known = self.relvars.get(name)?;
        Some((known.kind, &known.heading))
    }
}
