//! An engine: a database, and those to which its open transactions can go back.
ghost use Rattle.std.specs.Prelude.{◌≡◌, Bool, IfOk, List, OnErr, length};
ghost use Rattle.std.specs.String.{string_bytes};
ghost use Rattle.td_catalog.specs.model.Dumps.{dump_text};
ghost use Rattle.td_engine.specs.code.Carried.{IsOfDatabase};
ghost use Rattle.td_engine.specs.laws.LegalityLaws.{IsSpelledStatement};
ghost use Rattle.td_engine.specs.model.Machine.{begun_transaction, committed_transaction};
ghost use Rattle.td_engine.specs.model.Machine.{effect_in, empty_state, rolled_back, step_of};
ghost use Rattle.td_engine.specs.laws.Rebuilding.{Rebuilds};
ghost use Rattle.td_engine.specs.model.Legality.{IsLegalState};
ghost use Rattle.td_engine.specs.code.Stages.{kept_for};
ghost use Rattle.td_engine.specs.code.Steps.{Does, IsParsed, IsStep};
ghost use Rattle.td_engine.specs.code.Transactions.{transaction_view};
ghost use Rattle.td_tree.specs.model.Statements.{PlacedToken};
ghost use Rattle.td_tree.specs.code.TreeViews.{statement_view};

use crate::answer::Answer;
use crate::legal_catalog::{LegalCatalog, answer_of_fault};
use crate::transaction::{Transaction, transaction_of};
use std::alloc::{AllocError, Global};
use std::marker::Model;
use td_body::body::Body;
use td_catalog::catalog::Catalog;
use td_parse::statement::parse_statement;
use td_scan::token::Token;
use td_tree::cause::Cause;
use td_tree::fault::Fault;
use td_tree::statement::Statement;

/// The most transactions that may be open.
const TRANSACTION_LIMIT: usize = 16;

/// An engine, seen as its database and those that the open transactions keep, the last begun
/// first: it changes by statements alone.
#[derive(Drop)]
pub struct Engine<B: Body> {
    alloc: Global,
    present: LegalCatalog<B>,
    /// How many databases were kept when each open transaction began, the last begun last.
    opens: Vec<usize>,
}

impl<B: Body> Model for Engine<B> {
    ghost use Rattle.std.specs.Prelude.{reverse};
    ghost use Rattle.td_engine.specs.model.Machine.{State};
    ghost use Rattle.td_engine.specs.code.Stages.{IsEngine, state_at};
    ghost use Rattle.td_engine.specs.code.Transactions.{state_code};

    ghost Value = { State };

    ghost coded = { state_code };

    ghost view = { λ e. state_at e.present (reverse e.opens.items) };

    ghost invariant = { λ e. IsEngine e.present (reverse e.opens.items) };
}

/// Lets go of what the catalogue keeps, where no open transaction may go back to it.
fn settle<B: Body>(present: &mut LegalCatalog<B>, opens: &[usize])
    ensures { present.new ≡ kept_for opens.now present.old }
{
    if opens.is_empty() {
        present.settle();
    }
}

impl<B: Body> Engine<B> {
    /// An engine with an empty database, in no transaction. It takes no memory.
    pub fn new(alloc: Global) -> Engine<B>
        ensures { result ≡ empty_state }
    {
        let present = LegalCatalog::new(alloc);
        let _ = present.catalog();
        Engine {
            alloc,
            present,
            opens: Vec::new(alloc),
        }
    }

    /// The database.
    pub fn catalog(&self) -> &Catalog<B>
        ensures { result.now.database ≡ self.now.database }
    {
        self.present.catalog()
    }

    /// How many transactions are open.
    pub fn depth(&self) -> u32
        ensures { result ≡ length self.now.kept }
    {
        self.opens.len() as u32
    }

    /// Tells what every engine's databases are, where no part of it is seen.
    pub fn reveal(&self)
        ensures { IsLegalState self.now }
    {
        let _ = &self.present;
    }

    /// The script that makes the database anew, with no transaction open.
    pub fn dump(&self) -> Result<String, AllocError>
        ensures text { IfOk result (λ text. string_bytes text ≡ dump_text self.now.database) }
        ensures rebuilds { IfOk result (λ text.
            (stop : Bool) → Rebuilds stop (string_bytes text) self.now.database) }
    {
        self.present.catalog().dump_text()
    }

    /// Runs the statement that the tokens are. A statement that is refused or finds no memory
    /// leaves the database and the transactions as they were.
    pub fn step(&mut self, tokens: &[Token<'_>]) -> Result<Answer, AllocError>
        ensures step { IfOk result (λ answer. IsStep self.old tokens.now answer self.new) }
        ensures err { OnErr result (self.new ≡ self.old) }
        ensures legal { IsLegalState self.new }
    {
        self.carry_out(parse_statement(self.alloc, tokens))
    }

    /// Runs a statement that was parsed, so that its tokens need not be kept until its end.
    pub(crate) fn carry_out(
        &mut self,
        parsed: Result<Statement, Fault>,
    ) -> Result<Answer, AllocError>
        requires { IfOk parsed (λ s. IsSpelledStatement (statement_view s)) }
        ensures step { IfOk result (λ answer. (tokens : List PlacedToken)
            → IsParsed tokens parsed → IsStep self.old tokens answer self.new) }
        ensures err { OnErr result (self.new ≡ self.old) }
        ensures legal { IsLegalState self.new }
    {
        match parsed {
            Ok(statement) => self.execute(statement),
            Err(fault) => {
                let _ = &self.present;
                answer_of_fault(self.alloc, fault)
            }
        }
    }

    /// Does what a statement means.
    fn execute(&mut self, statement: Statement) -> Result<Answer, AllocError>
        requires { IsSpelledStatement (statement_view statement) }
        ensures done { IfOk result (λ answer.
            Does (step_of self.old (effect_in self.old (statement_view statement))) answer self.new) }
        ensures err { OnErr result (self.new ≡ self.old) }
        ensures legal { IsLegalState self.new }
    {
        match transaction_of(&statement) {
            None => self.change(statement),
            Some(transaction) => {
                drop(statement);
                self.transact(transaction)
            }
        }
    }

    /// Does what a statement means that is not of transactions.
    fn change(&mut self, statement: Statement) -> Result<Answer, AllocError>
        requires spelled { IsSpelledStatement (statement_view statement) }
        requires change { IsOfDatabase (statement_view statement) }
        ensures done { IfOk result (λ answer.
            Does (step_of self.old (effect_in self.old (statement_view statement))) answer self.new) }
        ensures err { OnErr result (self.new ≡ self.old) }
        ensures legal { IsLegalState self.new }
    {
        let answer = self.present.execute(statement);
        settle(&mut self.present, &self.opens);
        answer
    }

    /// Does what a statement of transactions means.
    fn transact(&mut self, transaction: Transaction) -> Result<Answer, AllocError>
        ensures done { IfOk result (λ answer.
            Does (step_of self.old (effect_in self.old (transaction_view transaction)))
            answer self.new) }
        ensures err { OnErr result (self.new ≡ self.old) }
        ensures legal { IsLegalState self.new }
    {
        match transaction {
            Transaction::Begin => self.begin(),
            Transaction::Commit => self.commit(),
            Transaction::Rollback => self.roll_back(),
        }
    }

    /// Keeps the number of databases that are kept.
    fn begin(&mut self) -> Result<Answer, AllocError>
        ensures done { IfOk result (λ answer.
            Does (step_of self.old (begun_transaction self.old)) answer self.new) }
        ensures err { OnErr result (self.new ≡ self.old) }
        ensures legal { IsLegalState self.new }
    {
        if self.opens.len() >= TRANSACTION_LIMIT {
            return Answer::of_cause(self.alloc, Cause::Transaction);
        }
        let answer = Answer::ok(self.alloc)?;
        self.opens.push(self.present.kept_count())?;
        Ok(answer)
    }

    /// Lets go of the number kept last.
    fn commit(&mut self) -> Result<Answer, AllocError>
        ensures done { IfOk result (λ answer.
            Does (step_of self.old (committed_transaction self.old.database self.old.kept)) answer
            self.new) }
        ensures err { OnErr result (self.new ≡ self.old) }
        ensures legal { IsLegalState self.new }
    {
        if self.opens.is_empty() {
            return Answer::of_cause(self.alloc, Cause::Transaction);
        }
        let answer = Answer::ok(self.alloc)?;
        let Some(_) = self.opens.pop() else {
            unreachable!()
        };
        settle(&mut self.present, &self.opens);
        Ok(answer)
    }

    /// Goes back to where the transaction begun last began.
    fn roll_back(&mut self) -> Result<Answer, AllocError>
        ensures done { IfOk result (λ answer.
            Does (step_of self.old (rolled_back self.old.kept)) answer self.new) }
        ensures err { OnErr result (self.new ≡ self.old) }
        ensures legal { IsLegalState self.new }
    {
        if self.opens.is_empty() {
            return Answer::of_cause(self.alloc, Cause::Transaction);
        }
        let answer = Answer::ok(self.alloc)?;
        let Some(place) = self.opens.pop() else {
            unreachable!()
        };
        self.present.revert(place);
        settle(&mut self.present, &self.opens);
        Ok(answer)
    }
}
