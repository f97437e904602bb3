//! The virtual relvars that expressions may need, each of them evaluated once.
ghost use Rattle.std.specs.Prelude.{◌≡◌, IfOk, IfSome};
ghost use Rattle.td_eval.specs.model.DatabaseWorlds.{world_of};
ghost use Rattle.td_eval.specs.code.LentWorlds.{world_in};
ghost use Rattle.td_eval.specs.model.Worlds.{known_outcome};
ghost use Rattle.td_plan.specs.code.Hands.{AreValued};
ghost use Rattle.td_tree.specs.model.Outcomes.{Answers};

use crate::making::plans::plan;
use crate::running::plan_world::{PlanWorld, ValuedRelvar};
use crate::running::run_plan::run_plan_in;
use std::alloc::{AllocError, Global};
use td_body::body::Body;
use td_catalog::catalog::Catalog;
use td_check::names::names_in;
use td_eval::env::Env;
use td_eval::names::relvar_in;
use td_tree::expression::Expr;
use td_tree::fault::Fault;
use td_tree::name::Name;
use td_value::relation::Rel;
use td_value::value::Value;

// ---- which are asked: their places in the catalogue are marked

/// Marks the place of the virtual relvar of the name, if there is one. No memory is taken before
/// the first mark.
fn mark<B: Body>(
    catalog: &Catalog<B>,
    name: &Name,
    marks: &mut Vec<bool>,
) -> Result<(), AllocError> {
    let Some(place) = catalog.virtual_place(name) else {
        return Ok(());
    };
    if marks.is_empty() {
        for _ in 0..catalog.virtual_count() {
            marks.push(false)?;
        }
    }
    if let Some(is_asked) = marks.get_mut(place) {
        *is_asked = true;
    }
    Ok(())
}

/// Marks the virtual relvars of these names.
fn mark_all<B: Body>(
    catalog: &Catalog<B>,
    names: &[Name],
    marks: &mut Vec<bool>,
) -> Result<(), AllocError> {
    for name in names {
        mark(catalog, name, marks)?;
    }
    Ok(())
}

/// Adds the names that stand as expressions in an expression, where there are virtual relvars.
pub(crate) fn add_names<B: Body>(
    alloc: Global,
    catalog: &Catalog<B>,
    expr: &Expr,
    names: &mut Vec<Name>,
) -> Result<(), AllocError> {
    if catalog.virtual_count() > 0 {
        names.append(&mut names_in(alloc, expr)?)?;
    }
    Ok(())
}

/// Whether a place is marked.
fn is_marked(marks: &[bool], place: usize) -> bool {
    marks.get(place).is_some_and(|is_asked| *is_asked)
}

/// Marks also those that are named, in turn, in the expression of one that is marked. An expression
/// names none that is defined after its own virtual relvar.
fn mark_reached<B: Body>(
    alloc: Global,
    catalog: &Catalog<B>,
    marks: &mut Vec<bool>,
) -> Result<(), AllocError> {
    let mut place = marks.len();
    while place > 0 {
        place -= 1;
        if !is_marked(marks, place) {
            continue;
        }
        if let Some(tree) = catalog.virtual_tree_at(place) {
            mark_all(catalog, &names_in(alloc, tree)?, marks)?;
        }
    }
    Ok(())
}

// ---- their values

/// The value of the relvar of the name where no other relation stands in: of a virtual relvar that
/// of its expression, by a plan.
fn relvar_by_plan<'a, B: Body>(
    alloc: Global,
    catalog: &'a Catalog<B>,
    name: &Name,
    valued: &[ValuedRelvar],
) -> Result<Value, Fault>
    requires { AreValued (world_of catalog.now.database) valued.now }
    ensures { Answers (λ v. v) result
        (known_outcome ((world_of catalog.now.database).relvar name.now)) }
{
    catalog.reveal();
    let other: Option<(&'a Name, &'a Rel)> = None;
    let env = Env {
        catalog,
        other,
        tuples: &[],
    };
    let Some(entry) = catalog.get_virtual(name) else {
        return relvar_in(alloc, &env, name);
    };
    let plan = plan(alloc, &env, entry.tree.tree())?;
    let around = PlanWorld {
        alloc,
        env: &env,
        valued,
    };
    run_plan_in(&around, &plan)
}

/// The name of the virtual relvar at a place, if the place is marked and no other relation stands
/// in for it.
fn asked_at<'a, B: Body>(env: &Env<'a, B>, marks: &[bool], place: usize) -> Option<&'a Name>
    ensures { IfSome result (λ name. (world_in env.now).relvar name.now
        ≡ (world_of env.now.catalog.now.database).relvar name.now) }
{
    if !is_marked(marks, place) {
        return None;
    }
    let name = env.catalog.virtual_at(place)?;
    let Some((other, _)) = env.other else {
        return Some(name);
    };
    if *other == *name { None } else { Some(name) }
}

/// The values of the virtual relvars that are among the names, and of those that they need: each
/// is evaluated where those before it have values.
pub(crate) fn virtual_relvars<B: Body>(
    alloc: Global,
    env: &Env<'_, B>,
    names: &[Name],
) -> Result<Vec<ValuedRelvar>, AllocError>
    ensures { IfOk result (λ valued. AreValued (world_in env.now) valued.items) }
{
    let mut marks = Vec::new(alloc);
    mark_all(env.catalog, names, &mut marks)?;
    mark_reached(alloc, env.catalog, &mut marks)?;
    let mut valued = Vec::new(alloc);
    for place in 0..marks.len() {
        let Some(name) = asked_at(env, &marks, place) else {
            continue;
        };
        let answer = relvar_by_plan(alloc, env.catalog, name, &valued);
        let name = name.try_clone()?;
        valued.push(ValuedRelvar { name, answer })?;
    }
    Ok(valued)
}
