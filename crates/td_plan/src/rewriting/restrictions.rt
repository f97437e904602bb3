//! The steps of WHERE. A condition that cannot fail restricts the operands of WHERE's operand.
ghost use Rattle.std.specs.Prelude.{◌≡◌, ◌+◌, suc};
ghost use Rattle.td_check.specs.model.Scopes.{entered_with};
ghost use Rattle.td_plan.specs.code.Narrowing.{IsNarrowed, MayNarrow};
ghost use Rattle.td_plan.specs.code.PlannedParts.{IsBoxPlanned, IsPlanned};
ghost use Rattle.td_plan.specs.code.PlansBelow.{PlansBelow};
ghost use Rattle.td_plan.specs.code.Pushing.{restricted_tree};
ghost use Rattle.td_plan.specs.code.TreeWeights.{expr_weight};
ghost use Rattle.td_tree.specs.code.TreeViews.{tree_view};
ghost use Rattle.td_tree.specs.model.Trees as trees;
ghost use Rattle.td_types.specs.model.Types.{Heading};

use crate::making::nodes::dyadic_step;
use crate::making::planner::{Definitions, Planner};
use crate::making::planning::Planning;
use crate::plan::step::{Dyadic, Origin, Step};
use crate::rewriting::narrowed::{base_named, look_up_by_key};
use crate::rewriting::push::{Restricted, restricted_operands};
use std::alloc::AllocError;
use td_tree::expression::Expr;
use td_tree::operator::Operator;
use td_types::heading::Heading;

impl<C: Definitions, F> Planning<'_, C, F>
where
    F: Fn(&Planner<'_, C>, &Expr) -> Result<Step, AllocError> + Copy,
{
    /// The step of the tuples of an expression's relation for which a condition is true.
    #[cycle(restriction)]
    pub(crate) fn where_of(
        &self,
        expr: &Expr,
        condition: &Expr,
        origin: Origin,
    ) -> Result<Step, AllocError>
        requires { PlansBelow C.database self.now
            (suc (expr_weight expr.now + expr_weight condition.now)) F.pre F.post }
        ensures { IsPlanned self.now.planner.now.scope result
            (trees.restriction (tree_view expr.now) (tree_view condition.now)) }
    {
        match expr {
            Expr::Parentheses(inner) => self.where_of(inner, condition, origin),
            Expr::Binary(left, op, right) => {
                let left: &Expr = left;
                let right: &Expr = right;
                match restricted_operands(self.planner, left, *op, right, condition)? {
                    Some(restricted) => self.pushed_restriction(
                        restricted, left, *op, right, condition,
                    ),
                    None => self.where_here(expr, condition, origin),
                }
            }
            _ => self.where_here(expr, condition, origin),
        }
    }

    /// The step of an operator of operands that are restricted, as far as they are.
    #[cycle(restriction)]
    fn pushed_restriction(
        &self,
        restricted: Restricted,
        left: &Expr,
        op: Operator,
        right: &Expr,
        condition: &Expr,
    ) -> Result<Step, AllocError>
        requires { PlansBelow C.database self.now (suc (expr_weight left.now + expr_weight right.now
            + expr_weight condition.now)) F.pre F.post }
        ensures { IsPlanned self.now.planner.now.scope result
            (restricted_tree restricted (tree_view left.now) op (tree_view right.now)
            (tree_view condition.now)) }
    {
        let op = Dyadic::Operator(op);
        match restricted {
            Restricted::First => {
                let left = self.where_pushed(left, condition);
                dyadic_step(left, op, self.boxed_step(right))
            }
            Restricted::Second => {
                let left = self.boxed_step(left);
                dyadic_step(left, op, self.where_pushed(right, condition))
            }
            Restricted::Both => {
                let left = self.where_pushed(left, condition);
                dyadic_step(left, op, self.where_pushed(right, condition))
            }
        }
    }

    /// The step of a restriction that is pushed into an operand, in a box.
    #[cycle(restriction)]
    #[inline(never)]
    fn where_pushed(&self, operand: &Expr, condition: &Expr) -> Result<Box<Step>, AllocError>
        requires { PlansBelow C.database self.now
            (suc (expr_weight operand.now + expr_weight condition.now)) F.pre F.post }
        ensures { IsBoxPlanned self.now.planner.now.scope result
            (trees.restriction (tree_view operand.now) (tree_view condition.now)) }
    {
        let step = self.where_of(operand, condition, Origin::Pushed)?;
        Ok(Box::new(self.planner.alloc, step)?)
    }

    /// The step of WHERE of the expression's own step, or of a look-up in its place.
    #[inline(never)]
    fn where_here(&self, expr: &Expr, condition: &Expr, origin: Origin) -> Result<Step, AllocError>
        requires { PlansBelow C.database self.now
            (suc (expr_weight expr.now + expr_weight condition.now)) F.pre F.post }
        ensures { IsPlanned self.now.planner.now.scope result
            (trees.restriction (tree_view expr.now) (tree_view condition.now)) }
    {
        let Some(heading) = self.planner.heading_of(expr)? else {
            return self.step_of(expr);
        };
        let inner = self.planner.inner_planner(&heading)?;
        let slot = self.planner.next_slot();
        let operand = self.narrowed_operand(&inner, &heading, expr, condition)?;
        let condition = self.boxed_there(&inner, condition)?;
        Ok(Step::Restriction(operand, slot, condition, origin))
    }

    /// The step of the operand of WHERE, in a box: a look-up by a key that the condition fixes, if
    /// there is one, else the operand's own step. The inner planner knows the operand's tuple too.
    #[inline(never)]
    fn narrowed_operand(
        &self,
        inner: &Planner<'_, C>,
        heading: &Heading,
        operand: &Expr,
        condition: &Expr,
    ) -> Result<Box<Step>, AllocError>
        requires below { PlansBelow C.database self.now
            (suc (expr_weight operand.now + expr_weight condition.now)) F.pre F.post }
        requires inner { inner.now.scope ≡ entered_with heading.now self.now.planner.now.scope }
        ensures { IsNarrowed self.now.planner.now.scope result (tree_view operand.now)
            (tree_view condition.now) heading.now }
    {
        match self.look_up_of(inner, heading, operand, condition)? {
            Some(look_up) => Ok(look_up),
            None => self.boxed_step(operand),
        }
    }

    /// The look-up, in a box, of the operand of WHERE by a key that the condition fixes.
    fn look_up_of(
        &self,
        inner: &Planner<'_, C>,
        heading: &Heading,
        operand: &Expr,
        condition: &Expr,
    ) -> Result<Option<Box<Step>>, AllocError>
        requires below { PlansBelow C.database self.now (suc (expr_weight condition.now))
            F.pre F.post }
        requires inner { inner.now.scope ≡ entered_with heading.now self.now.planner.now.scope }
        ensures { MayNarrow self.now.planner.now.scope result (tree_view operand.now)
            (tree_view condition.now) heading.now }
    {
        let Some(name) = base_named(self.planner, operand) else {
            return Ok(None);
        };
        let fixed = self.fixed_values(condition, heading);
        look_up_by_key(inner, name, heading, condition, fixed)
    }
}
