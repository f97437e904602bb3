//! What is required of a statement before anything is carried out.
ghost use Rattle.td_check.specs.model.StaticTypes.{type_of};
ghost use Rattle.td_check.specs.model.StatementTypes.{statement_checked};
ghost use Rattle.td_tree.specs.model.Outcomes.{Answers, Valued, with_value};
ghost use Rattle.td_tree.specs.code.TreeViews.{statement_view, tree_view};

mod assignments;
mod definitions;
mod parts;

use crate::expression::check_at;
use crate::place::Place;
use crate::rules::requirements::ask;
use crate::scope::Scope;
use assignments::check_assignments;
use definitions::{define_base, define_constraint, define_type, define_virtual};
use td_tree::cause::Cause;
use td_tree::expression::Expr;
use td_tree::fault::Fault;
use td_tree::statement::Statement;

/// What is required of an expression whose value is written: it has a type.
fn check_written(scope: &Scope<'_>, expression: &Expr) -> Result<(), Fault>
    ensures { Answers (λ u. u) result
        (with_value (type_of scope.now (tree_view expression.now)) (λ _. Valued tt)) }
{
    check_at(expression, &Place::outside(scope))?;
    Ok(())
}

/// What is required of a statement before anything is carried out: the name of what is defined is
/// new and that of what is dropped is known, the parts have the types that are required, keys and
/// ranks are allowed, and what is assigned to is a base relvar.
pub fn check_statement(scope: &Scope<'_>, statement: &Statement) -> Result<(), Fault>
    ensures { Answers (λ u. u) result
        (statement_checked scope.now (statement_view statement.now)) }
{
    match statement {
        Statement::Empty
        | Statement::BeginTransaction
        | Statement::Commit
        | Statement::Rollback
        | Statement::Dump => Ok(()),
        Statement::DefineType(definition) => define_type(scope, definition),
        Statement::DropType(name) => ask(scope.types().get(name).is_some(), Cause::NameUnknown),
        Statement::DefineBase(definition) => define_base(scope, definition),
        Statement::DefineVirtual(definition) => define_virtual(scope, definition),
        Statement::DropVar(name) => ask(scope.knows_relvar(name), Cause::NameUnknown),
        Statement::DefineConstraint(name, condition) => define_constraint(scope, name, condition),
        Statement::DropConstraint(name) => ask(scope.knows_constraint(name), Cause::NameUnknown),
        Statement::Assign(assignments) => check_assignments(scope, assignments),
        Statement::Write(expression) => check_written(scope, expression),
    }
}
