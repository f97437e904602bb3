//! Statements: what one does to a catalogue.
ghost use Rattle.std.specs.Prelude.{OnOk};
ghost use Rattle.td_catalog.specs.model.Database.{database_scope};
ghost use Rattle.td_check.specs.model.StatementTypes.{statement_checked};
ghost use Rattle.td_engine.specs.code.Carried.{Changes, IsAdmitted, IsChange};
ghost use Rattle.td_engine.specs.code.ConstraintPlans.{AreKeptPlans};
ghost use Rattle.td_engine.specs.model.Machine.{carried_out};
ghost use Rattle.td_engine.specs.model.Legality.{IsLegal};
ghost use Rattle.td_engine.specs.code.Stages.{GoesOn};
ghost use Rattle.td_tree.specs.model.Outcomes.{Answers};
ghost use Rattle.td_tree.specs.code.TreeViews.{statement_view};

use crate::assignments::assign;
use crate::bases::define_base;
use crate::constraint_plans::forgotten;
use crate::definitions::{
    define_constraint, define_type, define_virtual, drop_constraint, drop_relvar, drop_type,
    unchecked_effect,
};
use crate::refusal::Failure;
use std::alloc::Global;
use td_body::body::Body;
use td_catalog::catalog::Catalog;
use td_check::statement::check_statement;
use td_plan::plan::Plan;
use td_tree::fault::Fault;
use td_tree::statement::Statement;

/// Whether the statement meets the static rules where the catalogue is known.
pub(crate) fn check_in<B: Body>(catalog: &Catalog<B>, statement: &Statement) -> Result<(), Fault>
    ensures { Answers (λ u. u) result
        (statement_checked (database_scope catalog.now.database) (statement_view statement.now)) }
{
    let scope = catalog.scope();
    check_statement(&scope, statement)
}

/// Does in the catalogue what a statement means that meets the static rules and prints nothing but
/// OK. Where it is refused or finds no memory, some of it may be done.
pub(crate) fn change<B: Body>(
    alloc: Global,
    catalog: &mut Catalog<B>,
    plans: &mut Vec<Option<Plan>>,
    statement: Statement,
) -> Result<(), Failure>
    requires legal { IsLegal catalog.old.database }
    requires admitted { IsAdmitted catalog.old.database (statement_view statement) }
    requires plans { AreKeptPlans catalog.old.database plans.old.items }
    ensures change { IsChange (statement_view statement)
        → Changes catalog.new.database result
        (carried_out catalog.old.database (statement_view statement)) }
    ensures on { GoesOn catalog.old catalog.new }
    ensures before { AreKeptPlans catalog.old.database plans.new.items }
    ensures after { OnOk result (AreKeptPlans catalog.new.database plans.new.items) }
{
    match statement {
        Statement::DefineType(definition) => forgotten(plans, define_type(catalog, definition)),
        Statement::DropType(name) => forgotten(plans, unchecked_effect(drop_type(catalog, &name))),
        Statement::DefineBase(definition) => {
            forgotten(plans, define_base(alloc, catalog, definition))
        }
        Statement::DefineVirtual(definition) => {
            forgotten(plans, define_virtual(alloc, catalog, definition))
        }
        Statement::DropVar(name) => forgotten(plans, unchecked_effect(drop_relvar(catalog, &name))),
        Statement::DefineConstraint(name, condition) => {
            forgotten(plans, define_constraint(alloc, catalog, name, condition))
        }
        Statement::DropConstraint(name) => {
            forgotten(plans, unchecked_effect(drop_constraint(catalog, &name)))
        }
        Statement::Assign(assignments) => assign(alloc, catalog, plans, assignments),
        Statement::Empty | Statement::BeginTransaction | Statement::Commit | Statement::Rollback =>
            Ok(()),
        Statement::Dump | Statement::Write(_) => Err(Failure::Memory),
    }
}
