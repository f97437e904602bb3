//! Entries that are added: each last in its list.
ghost use Rattle.std.specs.Prelude.{◌≡◌, ◌+◌, ◌<◌, [], OnErr, OnOk, Some, map, not, option_map};
ghost use Rattle.std.specs.Prelude.{vec_capacity, vec_len};
ghost use Rattle.td_catalog.specs.code.CatalogViews.{IsBodyOf, known_of, rows_of};
ghost use Rattle.td_catalog.specs.model.Database.{base_relvar, database_scope};
ghost use Rattle.td_catalog.specs.model.Database.{knows_constraint, knows_relvar, named_constraint};
ghost use Rattle.td_catalog.specs.model.Database.{virtual_relvar, with_base};
ghost use Rattle.td_catalog.specs.model.Database.{with_constraint, with_declared, with_virtual};
ghost use Rattle.td_catalog.specs.code.Histories.{HasRoom, UsesRoomOf, dropped_in};
ghost use Rattle.td_catalog.specs.code.KeptDatabases.{advanced_view};
ghost use Rattle.td_catalog.specs.model.TypedDatabases.{AreComponents, AreTyped, IsConstrained};
ghost use Rattle.td_catalog.specs.model.TypedDatabases.{IsTypedConstraint, IsTypedVirtual};
ghost use Rattle.td_check.specs.model.StatementTypes.{holds_or};
ghost use Rattle.td_tree.specs.model.Outcomes.{Answers};
ghost use Rattle.td_tree.specs.model.Trees.{Tree};
ghost use Rattle.td_tree.specs.model.WrittenTrees.{IsWritten};
ghost use Rattle.td_tree.specs.code.TreeViews.{tree_view};
ghost use Rattle.td_tree.specs.declared.cause.Cause.TheVariants as causes;
ghost use Rattle.td_types.specs.model.TypeLists.{AreKnown, declared_type, is_declared};
ghost use Rattle.td_types.specs.model.Types.{pack};
ghost use Rattle.td_types.specs.code.Views.{pairs_view};

use crate::catalog::Catalog;
use crate::defining::DefiningExpression;
use crate::entry::{BaseEntry, ConstraintEntry, VirtualEntry};
use crate::history::{History, Step};
use crate::tables::{Tables, put_last, put_name_last};
use std::alloc::AllocError;
use td_body::body::Body;
use td_tree::cause::Cause;
use td_tree::expression::Expr;
use td_tree::fault::Fault;
use td_tree::name::Name;
use td_types::heading::Heading;
use td_types::ty::Ty;

/// Makes room for one more entry in each table, beside those that steps moved out, and for one
/// more step.
pub(crate) fn prepare<B: Body>(
    tables: &mut Tables<B>,
    log: &mut History<B>,
) -> Result<(), AllocError>
    ensures rows { rows_of tables.new ≡ rows_of tables.old }
    ensures known { known_of tables.new ≡ known_of tables.old }
    ensures steps { log.new.steps.items ≡ log.old.steps.items }
    ensures kept { UsesRoomOf 0 tables.old tables.new }
    ensures room { OnOk result
        (HasRoom (dropped_in log.new.steps.items + 1) tables.new) }
    ensures space { OnOk result (vec_len log.new.steps < vec_capacity log.new.steps) }
{
    tables.make_room(log.dropped)?;
    log.reserve()
}

/// What holds of the constraint of a type, where it has one: it is written as tokens spell it.
fn reveal_constraint(constraint: &Option<Expr>)
    ensures { (e : Tree) → option_map tree_view constraint.now ≡ Some e → IsWritten e }
{
    if let Some(tree) = constraint {
        tree.reveal();
    }
}

impl<B: Body> Catalog<B> {
    /// Adds a type, last: refused where a type of the name is declared. `check_statement` tells
    /// whether its components and its constraint are as is required.
    pub fn add_type(
        &mut self,
        name: Name,
        components: Vec<(Name, Ty)>,
        constraint: Option<Expr>,
    ) -> Result<(), Fault>
        requires components { AreComponents self.old.database.types (pairs_view components.items) }
        requires constrained { IsConstrained self.old.database.types
            (declared_type name (pairs_view components.items) (option_map tree_view constraint)) }
        ensures answer { Answers (λ u. u) result
            (holds_or causes.NameTaken (not (is_declared name self.old.database.types))) }
        ensures added { OnOk result (self.new ≡ advanced_view (with_declared
            (declared_type name (pairs_view components.items) (option_map tree_view constraint))
            self.old.database) self.old) }
        ensures unchanged { OnErr result (self.new ≡ self.old) }
    {
        if self.tables.types.get(&name).is_some() {
            return Err(Fault::Refused(Cause::NameTaken));
        }
        reveal_constraint(&constraint);
        let added = name.try_clone()?;
        self.log.reserve()?;
        self.tables.types.add(name, components, constraint)?;
        self.tables.types.reveal();
        self.log.note(Step::TypeAdded(added));
        Ok(())
    }

    /// Whether a relvar has the name, base or virtual.
    pub(crate) fn has_relvar(&self, name: &Name) -> bool
        ensures { result ≡ knows_relvar name.now self.now.database }
    {
        self.tables.bases.contains_key(name) || self.tables.virtuals.contains_key(name)
    }

    /// Adds a base relvar, last: refused where a relvar of the name is there. Whether its keys are
    /// allowed and hold is not tested: that is a statement's to check, after its changes.
    pub fn add_base(
        &mut self,
        name: Name,
        heading: Heading,
        keys: Vec<Vec<Name>>,
        body: B,
    ) -> Result<(), Fault>
        requires heading { AreKnown self.old.database.types (pack heading) }
        requires body { IsBodyOf heading (map (λ key. key.items) keys.items)
            (B.relation body) (B.keys body) }
        requires typed { AreTyped self.old.database.types (B.relation body) }
        requires kept { B.kept body ≡ [] }
        ensures answer { Answers (λ u. u) result
            (holds_or causes.NameTaken (not (knows_relvar name self.old.database))) }
        ensures added { OnOk result (self.new ≡ advanced_view (with_base
            (base_relvar name (B.keys body) (B.relation body)) self.old.database) self.old) }
        ensures unchanged { OnErr result (self.new ≡ self.old) }
    {
        if self.has_relvar(&name) {
            return Err(Fault::Refused(Cause::NameTaken));
        }
        let _ = body.len();
        name.reveal();
        let known = name.try_clone()?;
        let known_heading = heading.try_clone()?;
        let entry = BaseEntry {
            heading,
            keys,
            body,
        };
        prepare(&mut self.tables, &mut self.log)?;
        self.tables.bases.insert(name, entry)?;
        put_last(&mut self.tables.declared.bases, known, known_heading);
        self.log.note(Step::BaseAdded);
        Ok(())
    }

    /// Adds a virtual relvar, last: refused where a relvar of the name is there. The heading is
    /// that of the expression.
    pub fn add_virtual(
        &mut self,
        name: Name,
        heading: Heading,
        tree: Expr,
        keys: Vec<Vec<Name>>,
    ) -> Result<(), Fault>
        requires { IsTypedVirtual (database_scope self.old.database) (virtual_relvar name heading
            (tree_view tree) (map (λ key. key.items) keys.items)) }
        ensures answer { Answers (λ u. u) result
            (holds_or causes.NameTaken (not (knows_relvar name self.old.database))) }
        ensures added { OnOk result (self.new ≡ advanced_view (with_virtual (virtual_relvar name
            heading
            (tree_view tree) (map (λ key. key.items) keys.items)) self.old.database) self.old) }
        ensures unchanged { OnErr result (self.new ≡ self.old) }
    {
        if self.has_relvar(&name) {
            return Err(Fault::Refused(Cause::NameTaken));
        }
        name.reveal();
        tree.reveal();
        let known = name.try_clone()?;
        let known_heading = heading.try_clone()?;
        let tree = DefiningExpression::new(*self.tables.virtuals.allocator(), tree)?;
        let entry = VirtualEntry {
            heading,
            tree,
            keys,
        };
        prepare(&mut self.tables, &mut self.log)?;
        self.tables.virtuals.insert(name, entry)?;
        put_last(&mut self.tables.declared.virtuals, known, known_heading);
        self.log.note(Step::VirtualAdded);
        Ok(())
    }

    /// Adds a constraint, last: refused where a constraint of the name is there. `check_statement`
    /// tells whether the expression is as is required.
    pub fn add_constraint(&mut self, name: Name, tree: Expr) -> Result<(), Fault>
        requires { IsTypedConstraint (database_scope self.old.database)
            (named_constraint name (tree_view tree)) }
        ensures answer { Answers (λ u. u) result
            (holds_or causes.NameTaken (not (knows_constraint name self.old.database))) }
        ensures added { OnOk result (self.new ≡ advanced_view
            (with_constraint (named_constraint name (tree_view tree)) self.old.database)
            self.old) }
        ensures unchanged { OnErr result (self.new ≡ self.old) }
    {
        if self.tables.constraints.contains_key(&name) {
            return Err(Fault::Refused(Cause::NameTaken));
        }
        name.reveal();
        let known = name.try_clone()?;
        let tree = DefiningExpression::new(*self.tables.constraints.allocator(), tree)?;
        prepare(&mut self.tables, &mut self.log)?;
        self.tables
            .constraints
            .insert(name, ConstraintEntry { tree })?;
        put_name_last(&mut self.tables.declared.constraints, known);
        self.log.note(Step::ConstraintAdded);
        Ok(())
    }
}
