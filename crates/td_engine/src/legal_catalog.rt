//! The catalogue of an engine, and what a statement does that is not of transactions.
ghost use Rattle.std.specs.Prelude.{◌≡◌, ◌+◌, ◌≤◌, IfNone, IfOk, IfSome, OnErr, length, take};
ghost use Rattle.std.specs.String.{string_bytes};
ghost use Rattle.td_catalog.specs.model.Database.{Database, empty_database};
ghost use Rattle.td_catalog.specs.model.Dumps.{dump_text};
ghost use Rattle.td_catalog.specs.code.KeptDatabases.{settled_view, stages};
ghost use Rattle.td_engine.specs.code.Carried.{IsAdmitted, IsChange, IsDenied, IsRefusedBy};
ghost use Rattle.td_engine.specs.code.Carried.{AnswersText, Prints};
ghost use Rattle.td_engine.specs.laws.LegalityLaws.{IsSpelledStatement};
ghost use Rattle.td_engine.specs.model.Machine.{State, effect, step_of};
ghost use Rattle.td_engine.specs.model.Refusals.{line};
ghost use Rattle.td_engine.specs.model.Legality.{IsLegal};
ghost use Rattle.td_engine.specs.code.Stages.{GoesOn, stage};
ghost use Rattle.td_engine.specs.code.Steps.{Does};
ghost use Rattle.td_tree.specs.model.Outcomes.{Answers, Outcome, Valued, with_value};
ghost use Rattle.td_tree.specs.code.TreeViews.{statement_view};
ghost use Rattle.td_value.specs.model.Literal.{literal};
ghost use Rattle.td_value.specs.model.Values.{Val};

use crate::answer::{Answer, line};
use crate::constraint_plans::forget;
use crate::evaluation::value;
use crate::refusal::{Failure, Refusal};
use crate::statement::{change, check_in};
use std::alloc::{AllocError, Global};
use std::marker::Model;
use td_body::body::Body;
use td_catalog::catalog::Catalog;
use td_plan::plan::Plan;
use td_tree::cause::Cause;
use td_tree::fault::Fault;
use td_tree::statement::Statement;
use td_value::value::Value;

/// The catalogue of an engine, whose present database is legal.
#[derive(Drop)]
pub(crate) struct LegalCatalog<B: Body> {
    alloc: Global,
    catalog: Catalog<B>,
    /// Plans of the constraints, each at its constraint's place, where one was made.
    plans: Vec<Option<Plan>>,
}

impl<B: Body> Model for LegalCatalog<B> {
    ghost use Rattle.td_catalog.specs.code.DatabaseCode.{catalog_code};
    ghost use Rattle.td_catalog.specs.code.KeptDatabases.{CatalogView};

    ghost Value = { CatalogView };

    ghost coded = { catalog_code };

    ghost view = { λ p. p.catalog };

    ghost use Rattle.td_engine.specs.code.ConstraintPlans.{AreKeptPlans};
    ghost use Rattle.td_engine.specs.model.Legality.{IsLegal};

    ghost invariant = { λ p. IsLegal p.catalog.database
        × AreKeptPlans p.catalog.database p.plans.items };
}

/// The answer to what is refused by a cause.
pub(crate) fn answer_of_fault(alloc: Global, fault: Fault) -> Result<Answer, AllocError>
    ensures databases { IfOk result (λ answer. (db : Database) → IsRefusedBy db fault answer) }
    ensures states { IfOk result (λ answer. (s : State) → IsRefusedBy s fault answer) }
{
    match fault {
        Fault::Refused(cause) => Answer::of_cause(alloc, cause),
        Fault::Memory => Err(AllocError),
    }
}

/// The answer to a statement that is refused.
fn answer_of_failure(alloc: Global, failure: Failure) -> Result<Answer, AllocError>
    ensures { IfOk result (λ answer. (db : Database) → IsDenied db failure answer) }
{
    match failure {
        Failure::Refused(Refusal::Cause(cause)) => Answer::of_cause(alloc, cause),
        Failure::Refused(Refusal::Key(name)) => Answer::of_cause_at(alloc, Cause::Key, &name),
        Failure::Refused(Refusal::Constraint(name)) => {
            Answer::of_cause_at(alloc, Cause::Constraint, &name)
        }
        Failure::Memory => Err(AllocError),
    }
}

/// The line of a value's literal.
fn literal_line(alloc: Global, value: Result<Value, Fault>) -> Result<String, Fault>
    ensures { (o : Outcome Val) → Answers (λ v. v) value o
        → Answers string_bytes result (with_value o (λ v. Valued (line (literal v)))) }
{
    match value {
        Ok(value) => Ok(line(value.literal(alloc)?)?),
        Err(fault) => Err(fault),
    }
}

/// The lines of the dump.
fn dumped_text<B: Body>(catalog: &Catalog<B>) -> Result<String, Fault>
    ensures { Answers string_bytes result (Valued (dump_text catalog.now.database)) }
{
    Ok(catalog.dump_text()?)
}

/// The text that a statement prints, if it prints a value or the dump.
fn printed_text<B: Body>(
    alloc: Global,
    catalog: &Catalog<B>,
    statement: &Statement,
) -> Option<Result<String, Fault>>
    requires legal { IsLegal catalog.now.database }
    requires admitted { IsAdmitted catalog.now.database (statement_view statement.now) }
    ensures some { IfSome result (Prints string_bytes catalog.now.database
        (statement_view statement.now)) }
    ensures none { IfNone result (IsChange (statement_view statement.now)) }
{
    match statement {
        Statement::Write(expression) => {
            Some(literal_line(alloc, value(alloc, catalog, expression)))
        }
        Statement::Dump => Some(dumped_text(catalog)),
        _ => None,
    }
}

/// The answer that prints a text.
fn write(alloc: Global, text: Result<String, Fault>) -> Result<Answer, AllocError>
    ensures { IfOk result (AnswersText string_bytes text) }
{
    match text {
        Ok(text) => Ok(Answer::with_text(text)),
        Err(fault) => answer_of_fault(alloc, fault),
    }
}

impl<B: Body> LegalCatalog<B> {
    /// An empty database. It takes no memory.
    pub(crate) fn new(alloc: Global) -> LegalCatalog<B>
        ensures { result ≡ settled_view empty_database }
    {
        LegalCatalog {
            alloc,
            catalog: Catalog::new(alloc),
            plans: Vec::new(alloc),
        }
    }

    /// The catalogue.
    pub(crate) fn catalog(&self) -> &Catalog<B>
        ensures same { result.now ≡ self.now }
        ensures legal { IsLegal self.now.database }
    {
        &self.catalog
    }

    /// How many databases are kept.
    pub(crate) fn kept_count(&self) -> usize
        ensures { result ≡ length self.now.kept }
    {
        self.catalog.kept()
    }

    /// Goes back to the database at a place among those kept. It takes no memory.
    pub(crate) fn revert(&mut self, place: usize)
        requires place { place ≤ length self.old.kept }
        requires legal { IsLegal (stage self.old place) }
        ensures { stages self.new ≡ take (place + 1) (stages self.old) }
    {
        self.catalog.revert(place);
        forget(&mut self.plans);
    }

    /// Keeps no earlier database any longer. It takes no memory.
    pub(crate) fn settle(&mut self)
        ensures { self.new ≡ settled_view self.old.database }
    {
        self.catalog.settle();
    }

    /// Does what a statement means. A statement that is refused or finds no memory leaves the
    /// catalogue as it was.
    pub(crate) fn execute(&mut self, statement: Statement) -> Result<Answer, AllocError>
        requires { IsSpelledStatement (statement_view statement) }
        ensures done { IfOk result (λ answer. Does (step_of self.old.database
            (effect self.old.database (statement_view statement))) answer self.new.database) }
        ensures err { OnErr result (self.new ≡ self.old) }
        ensures on { GoesOn self.old self.new }
        ensures legal { IsLegal self.new.database }
    {
        match check_in(&self.catalog, &statement) {
            Ok(()) => self.carry_out(statement),
            Err(fault) => {
                drop(statement);
                answer_of_fault(self.alloc, fault)
            }
        }
    }

    /// Does what a statement means that meets the static rules.
    fn carry_out(&mut self, statement: Statement) -> Result<Answer, AllocError>
        requires { IsAdmitted self.old.database (statement_view statement) }
        ensures done { IfOk result (λ answer. Does (step_of self.old.database
            (effect self.old.database (statement_view statement))) answer self.new.database) }
        ensures err { OnErr result (self.new ≡ self.old) }
        ensures on { GoesOn self.old self.new }
        ensures legal { IsLegal self.new.database }
    {
        match printed_text(self.alloc, &self.catalog, &statement) {
            None => self.change(statement),
            Some(text) => {
                drop(statement);
                write(self.alloc, text)
            }
        }
    }

    /// Does in the catalogue what a statement means, makes the answer, and goes back where that is
    /// not to be or finds no memory.
    fn change(&mut self, statement: Statement) -> Result<Answer, AllocError>
        requires admitted { IsAdmitted self.old.database (statement_view statement) }
        requires change { IsChange (statement_view statement) }
        ensures done { IfOk result (λ answer. Does (step_of self.old.database
            (effect self.old.database (statement_view statement))) answer self.new.database) }
        ensures err { OnErr result (self.new ≡ self.old) }
        ensures on { GoesOn self.old self.new }
        ensures legal { IsLegal self.new.database }
    {
        let place = self.catalog.kept();
        match change(self.alloc, &mut self.catalog, &mut self.plans, statement) {
            Ok(()) => match Answer::ok(self.alloc) {
                Ok(answer) => Ok(answer),
                Err(error) => {
                    self.catalog.revert(place);
                    Err(error)
                }
            },
            Err(failure) => {
                self.catalog.revert(place);
                answer_of_failure(self.alloc, failure)
            }
        }
    }
}
