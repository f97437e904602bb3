//! What an assignment is to, and what it changes.
ghost use Rattle.std.specs.Prelude.{◌≡◌, [], IfOk, option_map};
ghost use Rattle.std.specs.List.{list_all};
ghost use Rattle.td_algebra.specs.code.Merges.{is_wanted};
ghost use Rattle.td_body.specs.model.Bodies.{after_change};
ghost use Rattle.td_engine.specs.model.Assignments.{relation_for, setting_names, target_of};
ghost use Rattle.td_engine.specs.model.Assignments.{updated_relation};
ghost use Rattle.td_engine.specs.code.Changes.{IsOfHeading};
ghost use Rattle.td_engine.specs.code.Plannable.{IsPlannableAssignment};
ghost use Rattle.td_engine.specs.code.Targets.{AreSettingsFor, GivesAs, IsConditionFor, IsEnvOf};
ghost use Rattle.td_engine.specs.code.Targets.{IsSourceFor, IsTarget, chosen_of, so_far};
ghost use Rattle.td_engine.specs.code.Targets.{world_for};
ghost use Rattle.td_eval.specs.model.TreeValues.{values_in_tuples};
ghost use Rattle.td_tree.specs.model.Outcomes.{Answers, Valued};
ghost use Rattle.td_tree.specs.model.Trees as trees;
ghost use Rattle.td_tree.specs.code.TreeViews.{assignment_view, named_view, tree_view};
ghost use Rattle.td_tree.specs.declared.operator.Style.{Style};
ghost use Rattle.td_value.specs.model.Sets.{has};
ghost use Rattle.td_value.specs.model.Values.{IsTupleOf, tuple_cmp};

use crate::change::Change;
use crate::evaluation::{env_with, relation_of};
use crate::settings::updated_tuples;
use std::alloc::{AllocError, Global};
use td_body::body::Body;
use td_catalog::catalog::Catalog;
use td_catalog::entry::BaseEntry;
use td_eval::env::Env;
use td_plan::values::{tuples_where, value_in};
use td_tree::cause::Cause;
use td_tree::expression::{Expr, NamedExpr};
use td_tree::fault::Fault;
use td_tree::name::Name;
use td_tree::statement::Assignment;
use td_value::relation::Rel;
use td_value::tuple::Tuple;

/// A base relvar that an assignment is to.
#[derive(Drop)]
pub(crate) struct Target<'c, B: Body> {
    pub(crate) alloc: Global,
    pub(crate) catalog: &'c Catalog<B>,
    pub(crate) name: &'c Name,
    pub(crate) entry: &'c BaseEntry<B>,
    /// What earlier assignments of the statement gave it, if there are any.
    pub(crate) given: Option<&'c Rel>,
}

impl<'c, B: Body> Target<'c, B> {
    /// What the sources of its assignments are evaluated in.
    fn env(&self) -> Env<'c, B>
        requires { IsTarget B.relation B.keys self.now }
        ensures { IsEnvOf self.now.catalog.now.database (world_for B.relation self.now) result }
    {
        match self.given {
            Some(relation) => env_with(self.catalog, Some((self.name, relation))),
            None => env_with(self.catalog, None),
        }
    }

    /// What it holds so far.
    fn relation(&self) -> Result<Rel, AllocError>
        ensures { IfOk result (λ r. r ≡ so_far B.relation self.now) }
    {
        match self.given {
            Some(relation) => relation.try_clone(),
            None => self.entry.body.to_rel(),
        }
    }

    /// Whether a tuple is a member of it so far. It takes no memory.
    fn has(&self, tuple: &Tuple) -> bool
        requires { IsTupleOf (so_far B.relation self.now).heading tuple.now }
        ensures { result ≡ has tuple_cmp tuple.now (so_far B.relation self.now).body }
    {
        match self.given {
            Some(relation) => relation.contains(tuple),
            None => self.entry.body.contains(tuple),
        }
    }

    /// Whether each of the tuples is a member of it so far, or whether none is, as is wanted.
    fn are_members(&self, tuples: &Rel, wanted: bool) -> bool
        requires { tuples.now.heading ≡ (so_far B.relation self.now).heading }
        ensures { result
            ≡ list_all (is_wanted wanted (so_far B.relation self.now).body) tuples.now.body }
    {
        for tuple in tuples.rows() {
            if self.has(tuple) != wanted {
                return false;
            }
        }
        true
    }

    // ---- what expressions give

    /// The tuples of a source, which are of its heading.
    fn source_tuples(&self, source: &Expr) -> Result<Rel, Fault>
        requires target { IsTarget B.relation B.keys self.now }
        requires source { IsSourceFor B.relation self.now (tree_view source.now) }
        ensures answer { Answers (λ r. r) result (relation_for (so_far B.relation self.now)
            (world_for B.relation self.now) (tree_view source.now)) }
        ensures heading { IfOk result (λ r. r.heading ≡ (so_far B.relation self.now).heading) }
    {
        let value = value_in(self.alloc, &self.env(), source);
        relation_of(&self.entry.heading, value)
    }

    /// The tuples for which a condition is TRUE, all without one. What fixes a key looks them up.
    fn chosen_tuples(&self, condition: Option<&Expr>) -> Result<Rel, Fault>
        requires target { IsTarget B.relation B.keys self.now }
        requires condition { IsConditionFor B.relation self.now
            (option_map (λ e. tree_view e.now) condition) }
        ensures answer { Answers (λ r. r) result (chosen_of B.relation self.now
            (option_map (λ e. tree_view e.now) condition.entry)) }
        ensures heading { IfOk result (λ r. r.heading ≡ (so_far B.relation self.now).heading) }
    {
        let Some(condition) = condition else {
            return Ok(self.relation()?);
        };
        let value = tuples_where(self.alloc, &self.env(), self.name, condition);
        relation_of(&self.entry.heading, value)
    }

    /// What UPDATE makes of the chosen tuples.
    fn updated_tuples(&self, chosen: &Rel, settings: &[NamedExpr]) -> Result<Rel, Fault>
        requires target { IsTarget B.relation B.keys self.now }
        requires heading { chosen.now.heading ≡ (so_far B.relation self.now).heading }
        requires settings { AreSettingsFor B.relation self.now (Valued chosen.now)
            (named_view settings.now) }
        ensures answer { Answers (λ r. after_change chosen.now r (so_far B.relation self.now))
            result (updated_relation (so_far B.relation self.now)
            (setting_names (named_view settings.now)) (values_in_tuples
            (world_for B.relation self.now) [] (named_view settings.now)) chosen.now) }
        ensures heading { IfOk result (λ r. r.heading ≡ (so_far B.relation self.now).heading) }
    {
        updated_tuples(self.alloc, &self.env(), chosen, settings)
    }

    // ---- assignments

    /// What an assignment of the value of an expression changes.
    fn assign(&self, source: &Expr) -> Result<Change, Fault>
        requires target { IsTarget B.relation B.keys self.now }
        requires source { IsSourceFor B.relation self.now (tree_view source.now) }
        ensures answer { GivesAs B.relation self.now result
            (trees.assign self.now.name.now (tree_view source.now)) }
        ensures headings { IfOk result (IsOfHeading (so_far B.relation self.now).heading) }
    {
        let relation = self.source_tuples(source)?;
        Ok(Change::between(self.alloc, &self.relation()?, &relation)?)
    }

    /// What INSERT changes.
    fn insert(&self, source: &Expr) -> Result<Change, Fault>
        requires target { IsTarget B.relation B.keys self.now }
        requires source { IsSourceFor B.relation self.now (tree_view source.now) }
        ensures answer { GivesAs B.relation self.now result
            (trees.insert self.now.name.now (tree_view source.now)) }
        ensures headings { IfOk result (IsOfHeading (so_far B.relation self.now).heading) }
    {
        let add = self.source_tuples(source)?;
        Ok(Change::adding(self.alloc, add)?)
    }

    /// What D_INSERT changes: a tuple that is there is refused.
    fn disjoint_insert(&self, source: &Expr) -> Result<Change, Fault>
        requires target { IsTarget B.relation B.keys self.now }
        requires source { IsSourceFor B.relation self.now (tree_view source.now) }
        ensures answer { GivesAs B.relation self.now result
            (trees.disjoint_insert self.now.name.now (tree_view source.now)) }
        ensures headings { IfOk result (IsOfHeading (so_far B.relation self.now).heading) }
    {
        let add = self.source_tuples(source)?;
        if self.are_members(&add, false) {
            Ok(Change::adding(self.alloc, add)?)
        } else {
            Err(Fault::Refused(Cause::NotDisjoint))
        }
    }

    /// What I_DELETE changes: a tuple that is not there is refused.
    fn included_delete(&self, source: &Expr) -> Result<Change, Fault>
        requires target { IsTarget B.relation B.keys self.now }
        requires source { IsSourceFor B.relation self.now (tree_view source.now) }
        ensures answer { GivesAs B.relation self.now result
            (trees.included_delete self.now.name.now (tree_view source.now)) }
        ensures headings { IfOk result (IsOfHeading (so_far B.relation self.now).heading) }
    {
        let out = self.source_tuples(source)?;
        if self.are_members(&out, true) {
            Ok(Change::taking(self.alloc, out)?)
        } else {
            Err(Fault::Refused(Cause::NotIncluded))
        }
    }

    /// What DELETE changes.
    fn delete(&self, condition: Option<&Expr>) -> Result<Change, Fault>
        requires target { IsTarget B.relation B.keys self.now }
        requires condition { IsConditionFor B.relation self.now
            (option_map (λ e. tree_view e.now) condition) }
        ensures answer { GivesAs B.relation self.now result (trees.delete self.now.name.now
            (option_map (λ e. tree_view e.now) condition.entry)) }
        ensures headings { IfOk result (IsOfHeading (so_far B.relation self.now).heading) }
    {
        let out = self.chosen_tuples(condition)?;
        Ok(Change::taking(self.alloc, out)?)
    }

    /// What UPDATE changes.
    fn update(&self, condition: Option<&Expr>, settings: &[NamedExpr]) -> Result<Change, Fault>
        requires target { IsTarget B.relation B.keys self.now }
        requires condition { IsConditionFor B.relation self.now
            (option_map (λ e. tree_view e.now) condition) }
        requires settings { AreSettingsFor B.relation self.now (chosen_of B.relation self.now
            (option_map (λ e. tree_view e.now) condition)) (named_view settings.now) }
        ensures answer { (style : Style) → GivesAs B.relation self.now result
            (trees.update style self.now.name.now
            (option_map (λ e. tree_view e.now) condition.entry) (named_view settings.now)) }
        ensures headings { IfOk result (IsOfHeading (so_far B.relation self.now).heading) }
    {
        let out = self.chosen_tuples(condition)?;
        let add = self.updated_tuples(&out, settings)?;
        Ok(Change { out, add })
    }

    /// What an assignment to it changes.
    pub(crate) fn change(&self, assignment: &Assignment) -> Result<Change, Fault>
        requires target { IsTarget B.relation B.keys self.now }
        requires named { target_of (assignment_view assignment.now) ≡ self.now.name.now }
        requires plannable { IsPlannableAssignment self.now.catalog.now.database
            (so_far B.relation self.now) (assignment_view assignment.now) }
        ensures answer { GivesAs B.relation self.now result (assignment_view assignment.now) }
        ensures headings { IfOk result (IsOfHeading (so_far B.relation self.now).heading) }
    {
        match assignment {
            Assignment::Assign(_, source) => self.assign(source),
            Assignment::Insert(_, source) => self.insert(source),
            Assignment::DisjointInsert(_, source) => self.disjoint_insert(source),
            Assignment::IncludedDelete(_, source) => self.included_delete(source),
            Assignment::Delete(_, condition) => self.delete(condition.as_ref()),
            Assignment::Update(_, _, condition, settings) => {
                self.update(condition.as_ref(), settings)
            }
        }
    }
}
