//! Plans of expressions. Each function takes what plans the parts of an expression as a parameter,
//! so that it is proved by itself.
ghost use Rattle.std.specs.Prelude.{◌+◌, IfOk, map, suc};
ghost use Rattle.td_check.specs.model.Scopes.{entered_with};
ghost use Rattle.td_check.specs.model.StaticTypes.{named_types};
ghost use Rattle.td_plan.specs.code.PlannedParts.{AreFoundColumns, ArePlanned, IsBoxPlanned};
ghost use Rattle.td_plan.specs.code.PlannedParts.{IsExtensionPlanned, IsPlanned, in_named};
ghost use Rattle.td_plan.specs.code.PlannedParts.{part_tree};
ghost use Rattle.td_plan.specs.code.Planners.{IsPlanner};
ghost use Rattle.td_plan.specs.code.PlansBelow.{PlansBelow};
ghost use Rattle.td_plan.specs.code.TreeWeights.{expr_weight, named_weight, weights};
ghost use Rattle.td_tree.specs.code.TreeViews.{named_view, tree_view, trees_view};
ghost use Rattle.td_tree.specs.model.Trees as trees;

use crate::making::closed::closed_step;
use crate::making::nodes::{
    choice_step, component, dyadic_step, extraction, headed_step, literal_step, monadic_step,
    name_step, postfix, relation_step, select_step, tuple_step,
};
use crate::making::planner::{Definitions, Planner};
use crate::plan::step::{Dyadic, Monadic, Origin, Step};
use std::alloc::AllocError;
use td_check::expression::check_parts;
use td_tree::expression::{Expr, NamedExpr};
use td_tree::fault::Fault;
use td_tree::name::Name;
use td_tree::operator::Aggregate;
use td_types::heading::Heading;
use td_types::ty::Ty;

/// New attributes, with the steps of their values in each tuple of an operand.
#[derive(Drop)]
pub(crate) struct NewColumns {
    /// Their names and types.
    pub(crate) attributes: Vec<(Name, Ty)>,
    /// The step of each attribute's value in a tuple.
    pub(crate) values: Vec<Step>,
}

/// What an expression is planned in, and what plans the parts of it there.
#[derive(Drop)]
pub(crate) struct Planning<'p, C, F> {
    pub(crate) planner: &'p Planner<'p, C>,
    /// Plans a part.
    pub(crate) inner: F,
}

impl<C: Definitions, F> Planning<'_, C, F>
where
    F: Fn(&Planner<'_, C>, &Expr) -> Result<Step, AllocError> + Copy,
{
    /// The step of a part.
    pub(crate) fn step_of(&self, expr: &Expr) -> Result<Step, AllocError>
        requires { PlansBelow C.database self.now (suc (expr_weight expr.now)) F.pre F.post }
        ensures { IsPlanned self.now.planner.now.scope result (tree_view expr.now) }
    {
        (self.inner)(self.planner, expr)
    }

    /// The step of a part, in a box, where the tuples that a planner knows are in scope.
    #[inline(never)]
    pub(crate) fn boxed_there(
        &self,
        planner: &Planner<'_, C>,
        expr: &Expr,
    ) -> Result<Box<Step>, AllocError>
        requires below { PlansBelow C.database self.now (suc (expr_weight expr.now)) F.pre F.post }
        requires planner { IsPlanner C.database planner.now }
        ensures { IsBoxPlanned planner.now.scope result (tree_view expr.now) }
    {
        let step = (self.inner)(planner, expr)?;
        Ok(Box::new(planner.alloc, step)?)
    }

    /// The step of a part, in a box.
    pub(crate) fn boxed_step(&self, expr: &Expr) -> Result<Box<Step>, AllocError>
        requires { PlansBelow C.database self.now (suc (expr_weight expr.now)) F.pre F.post }
        ensures { IsBoxPlanned self.now.planner.now.scope result (tree_view expr.now) }
    {
        self.boxed_there(self.planner, expr)
    }

    /// The steps of expressions, in the order written.
    #[inline(never)]
    fn steps_of(&self, exprs: &[Expr]) -> Result<Vec<Step>, AllocError>
        requires { PlansBelow C.database self.now (suc (weights (trees_view exprs.now)))
            F.pre F.post }
        ensures { ArePlanned self.now.planner.now.scope result (map tree_view exprs.now) }
    {
        let mut steps = Vec::with_capacity(self.planner.alloc, exprs.len())?;
        for expr in exprs {
            steps.push(self.step_of(expr)?)?;
        }
        Ok(steps)
    }

    /// The steps of the expressions of parts, in the order written.
    #[inline(never)]
    pub(crate) fn part_steps(&self, parts: &[NamedExpr]) -> Result<Vec<Step>, AllocError>
        requires { PlansBelow C.database self.now (suc (named_weight (named_view parts.now)))
            F.pre F.post }
        ensures { ArePlanned self.now.planner.now.scope result (map part_tree parts.now) }
    {
        let mut steps = Vec::with_capacity(self.planner.alloc, parts.len())?;
        for part in parts {
            steps.push(self.step_of(&part.value)?)?;
        }
        Ok(steps)
    }

    /// The new attributes that parts give to a tuple of the heading; none where they have no types.
    fn part_columns(
        &self,
        heading: &Heading,
        parts: &[NamedExpr],
    ) -> Result<Option<NewColumns>, AllocError>
        requires { PlansBelow C.database self.now (suc (named_weight (named_view parts.now)))
            F.pre F.post }
        ensures { IfOk result (λ found.
            AreFoundColumns (entered_with heading.now self.now.planner.now.scope) found
            (named_types (entered_with heading.now self.now.planner.now.scope)
            (named_view parts.now)) (in_named (named_view parts.now))) }
    {
        let planner = self.planner.inner_planner(heading)?;
        match check_parts(&planner.scope, parts) {
            Ok(attributes) => {
                let inner = Planning {
                    planner: &planner,
                    inner: self.inner,
                };
                let values = inner.part_steps(parts)?;
                Ok(Some(NewColumns { attributes, values }))
            }
            Err(Fault::Refused(_)) => Ok(None),
            Err(Fault::Memory) => Err(AllocError),
        }
    }

    /// The step of an aggregate of an expression in the tuples of an operand.
    #[inline(never)]
    fn aggregate_step(
        &self,
        op: Aggregate,
        operand: &Expr,
        value: &Expr,
    ) -> Result<Step, AllocError>
        requires { PlansBelow C.database self.now
            (suc (expr_weight operand.now + expr_weight value.now)) F.pre F.post }
        ensures { IsPlanned self.now.planner.now.scope result
            (trees.aggregate op (tree_view operand.now) (tree_view value.now)) }
    {
        let Some(heading) = self.planner.heading_of(operand)? else {
            return self.step_of(operand);
        };
        let inner = self.planner.inner_planner(&heading)?;
        let slot = self.planner.next_slot();
        let operand = self.boxed_step(operand)?;
        Ok(Step::Aggregate(op, operand, slot, self.boxed_there(&inner, value)?))
    }

    /// The step of an operand's tuples with attributes set, in either spelling.
    #[inline(never)]
    fn extend_step(&self, operand: &Expr, parts: &[NamedExpr]) -> Result<Step, AllocError>
        requires { PlansBelow C.database self.now
            (suc (expr_weight operand.now + named_weight (named_view parts.now))) F.pre F.post }
        ensures { IsExtensionPlanned self.now.planner.now.scope result (tree_view operand.now)
            (named_view parts.now) }
    {
        let Some(heading) = self.planner.heading_of(operand)? else {
            return self.step_of(operand);
        };
        let Some(columns) = self.part_columns(&heading, parts)? else {
            return self.step_of(operand);
        };
        let NewColumns { attributes, values } = columns;
        let slot = self.planner.next_slot();
        Ok(Step::Extend(self.boxed_step(operand)?, attributes, slot, values))
    }

    /// The step of an expression, by those of its parts.
    fn by_form(&self, expr: &Expr) -> Result<Step, AllocError>
        requires { PlansBelow C.database self.now (expr_weight expr.now) F.pre F.post }
        ensures { IsPlanned self.now.planner.now.scope result (tree_view expr.now) }
    {
        match expr {
            Expr::Literal(literal) => literal_step(self.planner.alloc, literal),
            Expr::Name(name) => name_step(self.planner, name),
            Expr::Parentheses(inner) => self.step_of(inner),
            Expr::Prefix(op, operand) => {
                monadic_step(Ok(Monadic::Prefix(*op)), self.boxed_step(operand))
            }
            Expr::Extract(name, operand) => {
                monadic_step(extraction(name), self.boxed_step(operand))
            }
            Expr::Restriction(operand, condition) => {
                self.where_of(operand, condition, Origin::Written)
            }
            Expr::Binary(left, op, right) => {
                let left = self.boxed_step(left);
                dyadic_step(left, Dyadic::Operator(*op), self.boxed_step(right))
            }
            Expr::Compare(left, op, right) => {
                let left = self.boxed_step(left);
                dyadic_step(left, Dyadic::Comparison(*op), self.boxed_step(right))
            }
            Expr::Postfix(operand, op) => monadic_step(postfix(op), self.boxed_step(operand)),
            Expr::Select(ty, arguments) => select_step(ty, self.steps_of(arguments)),
            Expr::Component(rest, operand) => {
                monadic_step(component(rest), self.boxed_step(operand))
            }
            Expr::Measure(op, operand) => {
                monadic_step(Ok(Monadic::Measure(*op)), self.boxed_step(operand))
            }
            Expr::Aggregate(op, operand, value) => self.aggregate_step(*op, operand, value),
            Expr::Relation(elements) => relation_step(self.steps_of(elements)),
            Expr::HeadedRelation(heading, elements) => {
                headed_step(self.planner, heading, self.steps_of(elements))
            }
            Expr::Tuple(parts) => tuple_step(self.planner.alloc, parts, self.part_steps(parts)),
            Expr::Extend(operand, parts) => self.extend_step(operand, parts),
            Expr::ExtendSetting(operand, settings) => self.extend_step(operand, settings),
            Expr::SummarizePer(operand, per, items) => self.summarize_per_step(operand, per, items),
            Expr::SummarizeBy(operand, by, items) => self.summarize_by_step(operand, by, items),
            Expr::If(condition, consequent, alternative) => choice_step(
                self.boxed_step(condition),
                self.boxed_step(consequent),
                self.boxed_step(alternative),
            ),
            Expr::With(items, value) => self.bound_step(items, value),
        }
    }

    /// The step of an expression: what it has, where that needs no plan, else by its parts.
    pub(crate) fn planned(&self, expr: &Expr) -> Result<Step, AllocError>
        requires { PlansBelow C.database self.now (expr_weight expr.now) F.pre F.post }
        ensures { IsPlanned self.now.planner.now.scope result (tree_view expr.now) }
    {
        match closed_step(self.planner, expr)? {
            Some(step) => Ok(step),
            None => self.by_form(expr),
        }
    }
}

/// The step of an expression.
pub(crate) fn step_of<C: Definitions>(
    planner: &Planner<'_, C>,
    expr: &Expr,
) -> Result<Step, AllocError>
    requires { IsPlanner C.database planner.now }
    ensures { IsPlanned planner.now.scope result (tree_view expr.now) }
{
    Planning {
        planner: &*planner,
        inner: step_of,
    }
    .planned(expr)
}

/// The steps of the expressions of parts, in the order written.
pub(crate) fn part_steps<C: Definitions>(
    planner: &Planner<'_, C>,
    parts: &[NamedExpr],
) -> Result<Vec<Step>, AllocError>
    requires { IsPlanner C.database planner.now }
    ensures { ArePlanned planner.now.scope result (map part_tree parts.now) }
{
    Planning {
        planner: &*planner,
        inner: step_of,
    }
    .part_steps(parts)
}

/// The step of the tuples of an expression's relation for which a condition is true.
pub(crate) fn where_of<C: Definitions>(
    planner: &Planner<'_, C>,
    expr: &Expr,
    condition: &Expr,
) -> Result<Step, AllocError>
    requires { IsPlanner C.database planner.now }
    ensures { IsPlanned planner.now.scope result
        (trees.restriction (tree_view expr.now) (tree_view condition.now)) }
{
    Planning {
        planner: &*planner,
        inner: step_of,
    }
    .where_of(expr, condition, Origin::Written)
}
