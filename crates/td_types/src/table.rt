//! Declared types in their order, looked up by name.
ghost use Rattle.std.specs.Prelude.{◌≡◌, ◌↔◌, ◌++◌, ◌∷◌, [], IfOk, IsTrue, OnErr, OnOk, map, not};
ghost use Rattle.std.specs.Prelude.{length, option_map, slice_get};
ghost use Rattle.td_tree.specs.code.TreeViews.{tree_view};
ghost use Rattle.td_types.specs.model.Headings.{are_distinct};
ghost use Rattle.td_types.specs.model.NamedTypes.{is_component, without_declared};
ghost use Rattle.td_types.specs.code.Pairs.{ArePairs};
ghost use Rattle.td_types.specs.code.Tables.{kept_rank};
ghost use Rattle.td_types.specs.model.TypeLists.{AreDeclared, AreKnown, IsKnown, declared_at};
ghost use Rattle.td_types.specs.model.TypeLists.{declared_place, declared_type, is_declared};
ghost use Rattle.td_types.specs.model.TypeLists.{user_ranks};
ghost use Rattle.td_types.specs.model.Types.{attribute_names, pack};
ghost use Rattle.td_types.specs.code.Views.{pairs_view, type_view};

use crate::rank::{components_rank, type_rank};
use crate::ty::Ty;
use indexmap::IndexMap;
use std::alloc::{AllocError, Global};
use std::marker::Model;
use std::rc::Rc;
use td_tree::expression::Expr;
use td_tree::name::Name;

/// A declared type.
#[derive(Drop)]
pub struct TypeEntry {
    name: Name,
    components: Vec<(Name, Ty)>,
    constraint: Option<Expr>,
}

impl Model for TypeEntry {
    ghost use Rattle.std.specs.Prelude.{option_map};
    ghost use Rattle.td_tree.specs.code.TreeViews.{tree_view};
    ghost use Rattle.td_types.specs.code.TypeListCode.{declared_code};
    ghost use Rattle.td_types.specs.model.TypeLists.{DeclaredType, declared_type};
    ghost use Rattle.td_types.specs.code.Views.{pairs_view};

    ghost Value = { DeclaredType };

    ghost coded = { declared_code };

    ghost view = { λ a.
        declared_type a.name (pairs_view a.components.items) (option_map tree_view a.constraint) };
}

impl TypeEntry {
    /// The components with their types, in declared order.
    pub fn components(&self) -> &[(Name, Ty)]
        ensures { pairs_view result.now ≡ self.now.components }
    {
        &self.components
    }

    /// The type constraint.
    pub fn constraint(&self) -> Option<&Expr>
        ensures { option_map (λ e. tree_view e.now) result ≡ self.now.constraint }
    {
        self.constraint.as_ref()
    }
}

/// A declared type and its rank, as far as it is within the limit.
#[derive(Drop)]
struct Row {
    entry: Rc<TypeEntry>,
    rank: Option<u32>,
}

/// Declared types, seen as their list in declared order. Copies share the types' components and
/// constraints.
#[derive(Drop)]
pub struct TypeTable {
    rows: IndexMap<Name, Row>,
}

impl Model for TypeTable {
    ghost use Rattle.std.specs.Prelude.{List};
    ghost use Rattle.td_types.specs.code.TypeListCode.{declared_list_code};
    ghost use Rattle.td_types.specs.model.TypeLists.{DeclaredType};

    ghost Value = { List DeclaredType };

    ghost coded = { declared_list_code };

    ghost use Rattle.td_types.specs.code.Tables.{IsTable, rows_view};

    ghost view = { λ a. rows_view a.rows.entries };

    ghost invariant = { λ a. IsTable a.rows.entries };
}

/// What holds of all names and types. It takes one step for each.
fn reveal_all(components: &[(Name, Ty)])
    ensures { ArePairs (pairs_view components.now) }
{
    for (name, ty) in components {
        name.reveal();
        ty.reveal();
    }
}

impl TypeTable {
    /// No declared type.
    pub fn new(alloc: Global) -> TypeTable
        ensures { result ≡ [] }
    {
        TypeTable {
            rows: IndexMap::new(alloc),
        }
    }

    /// What holds of every table. It takes no time.
    pub fn reveal(&self)
        ensures { AreDeclared self.now }
    {
        let _ = &self.rows;
    }

    /// Where the table's memory is from.
    pub(crate) fn allocator(&self) -> Global {
        *self.rows.allocator()
    }

    /// How many types are declared.
    pub fn len(&self) -> usize
        ensures { result ≡ length self.now }
    {
        self.rows.len()
    }

    /// The declared type of that name.
    pub fn get(&self, name: &Name) -> Option<&TypeEntry>
        ensures { option_map (λ e. e.now) result ≡ declared_at name.now self.now }
    {
        let row = self.rows.get(name)?;
        Some(&row.entry)
    }

    /// The name of the declared type at a place in declared order.
    pub fn at(&self, place: usize) -> Option<&Name>
        ensures { option_map (λ n. n.now) result
            ≡ option_map (λ d. d.name) (slice_get self.now place) }
    {
        let (name, _) = self.rows.get_index(place)?;
        Some(name)
    }

    /// The declared type at a place in declared order.
    pub fn entry_at(&self, place: usize) -> Option<&TypeEntry>
        ensures { option_map (λ e. e.now) result ≡ slice_get self.now place }
    {
        let (_, declared) = self.rows.get_index(place)?;
        Some(&declared.entry)
    }

    /// The place in declared order of the type of that name.
    pub fn place(&self, name: &Name) -> Option<usize>
        ensures { result ≡ declared_place name.now self.now }
    {
        self.rows.get_index_of(name)
    }

    /// The rank of the declared type of that name.
    pub(crate) fn user_rank(&self, name: &Name) -> Option<u32>
        ensures { result ≡ kept_rank (user_ranks self.now name.now) }
    {
        let row = self.rows.get(name)?;
        row.rank
    }

    /// Whether the user types in the type are declared.
    pub fn knows(&self, ty: &Ty) -> bool
        ensures { IsTrue result ↔ IsKnown self.now (type_view ty.now) }
    {
        self.reveal();
        type_rank(self, ty).is_some()
    }

    /// Whether the user types in the types of the components are declared.
    pub fn knows_all(&self, components: &[(Name, Ty)]) -> bool
        ensures { IsTrue result ↔ AreKnown self.now (pack (pairs_view components.now)) }
    {
        self.reveal();
        components_rank(self, components).is_some()
    }

    /// Adds a type. Its name is new, it has a component, the names of its components are distinct,
    /// and their user types are declared.
    pub fn add(
        &mut self,
        name: Name,
        components: Vec<(Name, Ty)>,
        constraint: Option<Expr>,
    ) -> Result<(), AllocError>
        requires new { IsTrue (not (is_declared name self.old)) }
        requires has_component { components.items ≡ [] → ⊥ }
        requires distinct { IsTrue (are_distinct (map (λ c. c.0) components.items)) }
        requires known { AreKnown self.old (pack (pairs_view components.items)) }
        ensures added { OnOk result (self.new ≡ self.old
            ++ declared_type name (pairs_view components.items) (option_map tree_view constraint)
            ∷ []) }
        ensures unchanged { OnErr result (self.new ≡ self.old) }
    {
        reveal_all(&components);
        let alloc = self.allocator();
        let key = name.try_clone()?;
        let rank = components_rank(self, &components);
        let entry = TypeEntry {
            name,
            components,
            constraint,
        };
        let entry = Rc::new(alloc, entry)?;
        self.rows.insert(key, Row { entry, rank })?;
        Ok(())
    }

    /// Takes out the type of that name. No declared type has a component that is made of it. It
    /// takes no memory.
    pub fn remove(&mut self, name: &Name)
        requires unused { IsTrue (not (is_component name.now self.old)) }
        ensures { self.new ≡ without_declared name.now self.old }
    {
        self.rows.shift_remove(name);
    }

    /// A copy of the types.
    pub fn try_clone(&self) -> Result<TypeTable, AllocError>
        ensures { IfOk result (λ table. table ≡ self.now) }
    {
        let mut rows = IndexMap::with_capacity(self.allocator(), self.len())?;
        for (name, row) in self.rows.iter() {
            let name = name.try_clone()?;
            let entry = row.entry.clone()?;
            let rank = row.rank;
            rows.insert(name, Row { entry, rank })?;
        }
        Ok(TypeTable { rows })
    }
}
