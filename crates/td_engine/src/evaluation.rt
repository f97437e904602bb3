//! The values of expressions where no tuple is in hand.
ghost use Rattle.std.specs.Prelude.{◌≡◌, [], IfOk, option_map};
ghost use Rattle.td_engine.specs.model.Assignments.{of_heading};
ghost use Rattle.td_engine.specs.code.Plannable.{IsPlannable};
ghost use Rattle.td_engine.specs.code.Targets.{IsEnvOf};
ghost use Rattle.td_eval.specs.model.DatabaseWorlds.{with_other, world_of};
ghost use Rattle.td_eval.specs.model.OperatorValues.{on_relation};
ghost use Rattle.td_eval.specs.model.TreeValues.{value_of};
ghost use Rattle.td_tree.specs.model.Outcomes.{Answers, Outcome, with_value};
ghost use Rattle.td_tree.specs.code.TreeViews.{tree_view};
ghost use Rattle.td_value.specs.model.Values.{Relation, Val};

use std::alloc::Global;
use td_body::body::Body;
use td_catalog::catalog::Catalog;
use td_eval::env::Env;
use td_plan::values::value_in;
use td_tree::cause::Cause;
use td_tree::expression::Expr;
use td_tree::fault::Fault;
use td_tree::name::Name;
use td_types::heading::Heading;
use td_value::relation::Rel;
use td_value::value::{Node, Value};

/// What is evaluated in where another relation may stand for one relvar.
pub(crate) fn env_with<'a, B: Body>(
    catalog: &'a Catalog<B>,
    other: Option<(&'a Name, &'a Rel)>,
) -> Env<'a, B>
    ensures { IsEnvOf catalog.now.database
        (with_other (option_map (λ o. (o.0.now, o.1.now)) other.entry)
        (world_of catalog.now.database)) result }
{
    Env {
        catalog,
        other,
        tuples: &[],
    }
}

/// The value of an expression that meets the static rules, by a plan.
pub(crate) fn value<B: Body>(
    alloc: Global,
    catalog: &Catalog<B>,
    expr: &Expr,
) -> Result<Value, Fault>
    requires { IsPlannable catalog.now.database (tree_view expr.now) }
    ensures { Answers (λ v. v) result
        (value_of (world_of catalog.now.database) [] (tree_view expr.now)) }
{
    value_in(alloc, &env_with(catalog, None), expr)
}

// ---- relations of a heading

/// The relation, where it is of the heading.
pub(crate) fn of_heading(heading: &Heading, relation: Rel) -> Result<Rel, Fault>
    ensures answer { (r : Relation) → r.heading ≡ heading.now
        → Answers (λ s. s) result (of_heading r relation) }
    ensures heading { IfOk result (λ s. s.heading ≡ heading.now) }
{
    if relation.heading() == heading {
        Ok(relation)
    } else {
        Err(Fault::Refused(Cause::Heading))
    }
}

/// The relation that the value is, of the heading.
fn relation_in(heading: &Heading, value: &Value) -> Result<Rel, Fault>
    ensures answer { (r : Relation) → r.heading ≡ heading.now
        → Answers (λ s. s) result (on_relation value.now (of_heading r)) }
    ensures heading { IfOk result (λ s. s.heading ≡ heading.now) }
{
    match &value.node {
        Node::Rel(relation) => of_heading(heading, relation.try_clone()?),
        _ => Err(Fault::Refused(Cause::TypeMismatch)),
    }
}

/// The relation that was answered, of the heading.
pub(crate) fn relation_of(heading: &Heading, answer: Result<Value, Fault>) -> Result<Rel, Fault>
    ensures answer { (r : Relation) (o : Outcome Val) → r.heading ≡ heading.now
        → Answers (λ v. v) answer o
        → Answers (λ s. s) result (with_value o (λ v. on_relation v (of_heading r))) }
    ensures heading { IfOk result (λ s. s.heading ≡ heading.now) }
{
    relation_in(heading, &answer?)
}
