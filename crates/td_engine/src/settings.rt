//! What UPDATE sets, and what it makes of tuples.
ghost use Rattle.std.specs.Prelude.{◌≡◌, ℕ, List, IfOk, IsTrue, length, map};
ghost use Rattle.td_body.specs.model.Bodies.{after_change};
ghost use Rattle.td_engine.specs.model.Assignments.{setting_attributes, setting_names};
ghost use Rattle.td_engine.specs.model.Assignments.{updated_relation};
ghost use Rattle.td_engine.specs.code.AssignedRelations.{setting_attribute};
ghost use Rattle.td_eval.specs.code.LentWorlds.{tuples_in_hand, world_in};
ghost use Rattle.td_eval.specs.model.TreeValues.{values_in_tuples};
ghost use Rattle.td_plan.specs.code.PlansOf.{PartsMeetRulesIn, scope_in};
ghost use Rattle.td_tree.specs.model.Outcomes.{Answers, gathered};
ghost use Rattle.td_tree.specs.code.TreeViews.{named_view};
ghost use Rattle.td_types.specs.model.Headings.{are_distinct};
ghost use Rattle.td_types.specs.model.Types.{Type', attribute_names};
ghost use Rattle.td_types.specs.code.Views.{pairs_view, type_view};
ghost use Rattle.td_value.specs.model.Values.{Relation};

use crate::evaluation::of_heading;
use std::alloc::Global;
use td_body::body::Body;
use td_eval::env::Env;
use td_plan::values::set_in_tuples;
use td_tree::cause::Cause;
use td_tree::expression::NamedExpr;
use td_tree::fault::Fault;
use td_tree::gathering::Gathering;
use td_tree::name::Name;
use td_types::heading::Heading;
use td_types::names::{are_distinct, names_of};
use td_types::ty::Ty;
use td_value::relation::Rel;

/// The attribute of a name that UPDATE sets: one that is missing is refused.
fn setting_attribute(heading: &Heading, name: &Name) -> Result<(Name, Ty), Fault>
    ensures { Answers {A = List ℕ × Type'} (λ a. (a.0, type_view a.1)) result
        (setting_attribute heading.now name.now) }
{
    match heading.get(name) {
        Some(ty) => Ok((name.try_clone()?, ty.try_clone()?)),
        None => Err(Fault::Refused(Cause::Heading)),
    }
}

/// The attributes that UPDATE sets: one that is missing is refused.
fn known_attributes(
    alloc: Global,
    heading: &Heading,
    settings: &[NamedExpr],
) -> Result<Vec<(Name, Ty)>, Fault>
    ensures { Answers (λ a. pairs_view a.items) result (gathered
        (map (setting_attribute heading.now) (setting_names (named_view settings.now)))) }
{
    let mut causes = Gathering::new();
    let mut attributes = Vec::with_capacity(alloc, settings.len())?;
    for setting in settings {
        causes.collect(&mut attributes, setting_attribute(heading, &setting.name))?;
    }
    causes.finish(attributes)
}

/// The attributes that UPDATE sets: one that is missing is refused, and so is one twice.
fn setting_attributes(
    alloc: Global,
    heading: &Heading,
    settings: &[NamedExpr],
) -> Result<Vec<(Name, Ty)>, Fault>
    ensures answer { Answers (λ a. pairs_view a.items) result
        (setting_attributes heading.now (setting_names (named_view settings.now))) }
    ensures lengths { IfOk result (λ a. length a.items ≡ length settings.now) }
    ensures distinct { IfOk result (λ a.
        IsTrue (are_distinct (attribute_names (pairs_view a.items)))) }
{
    let attributes = known_attributes(alloc, heading, settings)?;
    let names = names_of(alloc, &attributes)?;
    if are_distinct(&names) {
        Ok(attributes)
    } else {
        Err(Fault::Refused(Cause::Heading))
    }
}

/// What UPDATE makes of the chosen tuples.
pub(crate) fn updated_tuples<'a, B: Body>(
    alloc: Global,
    env: &Env<'a, B>,
    chosen: &Rel,
    settings: &[NamedExpr],
) -> Result<Rel, Fault>
    requires { PartsMeetRulesIn (world_in env.now) (scope_in env.now)
        (tuples_in_hand env.now) chosen.now (named_view settings.now) }
    ensures answer { (so_far : Relation) → so_far.heading ≡ chosen.now.heading
        → Answers (λ r. after_change chosen.now r so_far) result
        (updated_relation so_far (setting_names (named_view settings.now))
        (values_in_tuples (world_in env.now) (tuples_in_hand env.now) (named_view settings.now))
        chosen.now) }
    ensures heading { IfOk result (λ r. r.heading ≡ chosen.now.heading) }
{
    let attributes = setting_attributes(alloc, chosen.heading(), settings)?;
    let changed = set_in_tuples(alloc, env, chosen, attributes, settings)?;
    of_heading(chosen.heading(), changed)
}
