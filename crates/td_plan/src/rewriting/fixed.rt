//! Attributes that a condition fixes to values.
ghost use Rattle.std.specs.Prelude.{◌≡◌, IfOk, IsTrue, suc};
ghost use Rattle.td_check.specs.model.Scopes.{Scope};
ghost use Rattle.td_plan.specs.code.Fixing.{AreOneWhere, HasTypeOf, IsUnfailing, MayFix};
ghost use Rattle.td_plan.specs.code.Narrowing.{AreFixed, Implies};
ghost use Rattle.td_plan.specs.code.PlansBelow.{PlansBelow};
ghost use Rattle.td_plan.specs.code.TreeWeights.{expr_weight};
ghost use Rattle.td_tree.specs.declared.operator.Comparison.TheVariants as comparisons;
ghost use Rattle.td_tree.specs.declared.operator.Operator.TheVariants as operators;
ghost use Rattle.td_tree.specs.code.TreeViews.{tree_view};
ghost use Rattle.td_tree.specs.model.Trees.{Tree};
ghost use Rattle.td_tree.specs.model.WrittenTrees.{IsWritten};
ghost use Rattle.td_types.specs.model.Types.{Heading};

use crate::making::planner::{Definitions, Planner};
use crate::making::planning::Planning;
use crate::plan::step::Step;
use crate::rewriting::brief::is_brief;
use crate::rewriting::numbers::has_numbers;
use crate::rewriting::push::names_only;
use std::alloc::AllocError;
use td_check::cannot_fail::cannot_fail;
use td_check::scope::Scope;
use td_tree::expression::Expr;
use td_tree::fault::Fault;
use td_tree::name::Name;
use td_tree::operator::{Comparison, Operator};
use td_types::heading::Heading;

/// An attribute, and the step of the value that it has in each tuple for which a condition is TRUE.
#[derive(Drop)]
pub(crate) struct FixedValue {
    pub(crate) name: Name,
    pub(crate) value: Step,
}

/// Whether an expression has, outside of the tuples of the heading, the type of an attribute there.
fn has_type_of<C: Definitions>(
    planner: &Planner<'_, C>,
    heading: &Heading,
    name: &Name,
    value: &Expr,
) -> Result<bool, AllocError>
    ensures { IfOk result (λ b. IsTrue b
        → HasTypeOf planner.now.scope heading.now name.now (tree_view value.now)) }
{
    let Some(ty) = heading.get(name) else {
        return Ok(false);
    };
    match planner.type_of(value)? {
        Some(other) => Ok(other == *ty),
        None => Ok(false),
    }
}

/// Whether an expression has a value, whatever relations the base relvars hold.
pub(crate) fn has_a_value(scope: &Scope<'_>, expr: &Expr) -> Result<bool, AllocError>
    ensures { IfOk result (λ b. IsTrue b → IsUnfailing scope.now (tree_view expr.now)) }
{
    if !has_numbers(expr) {
        return Ok(false);
    }
    match cannot_fail(scope, expr) {
        Ok(answer) => Ok(answer),
        Err(Fault::Refused(_)) => Ok(false),
        Err(Fault::Memory) => Err(AllocError),
    }
}

/// Whether an equality with the expression fixes the attribute of the name. It is planned once more
/// for each WHERE around it, so that only what is brief does.
fn may_fix<C: Definitions>(
    planner: &Planner<'_, C>,
    heading: &Heading,
    name: &Name,
    value: &Expr,
) -> Result<bool, AllocError>
    ensures { IfOk result (λ b. IsTrue b
        → MayFix planner.now.scope heading.now name.now (tree_view value.now)) }
{
    let none = Heading::empty(planner.alloc);
    if !is_brief(value) || !names_only(planner.alloc, heading, &none, value)? {
        return Ok(false);
    }
    Ok(has_type_of(planner, heading, name, value)? && has_a_value(&planner.scope, value)?)
}

/// Whether the operator is AND.
fn is_and(op: Operator) -> bool
    ensures { IsTrue result → op ≡ operators.And }
{
    matches!(op, Operator::And)
}

/// Whether the comparison is of equality.
fn is_equal(op: Comparison) -> bool
    ensures { IsTrue result → op ≡ comparisons.Equal }
{
    matches!(op, Comparison::Equal)
}

impl<C: Definitions, F> Planning<'_, C, F>
where
    F: Fn(&Planner<'_, C>, &Expr) -> Result<Step, AllocError> + Copy,
{
    /// Puts the attribute that an operand of an equality names after the others, with the step of
    /// the other operand, where that fixes it.
    fn put_fixed_value(
        &self,
        value: &Expr,
        operand: &Expr,
        heading: &Heading,
        fixed: &mut Vec<FixedValue>,
    ) -> Result<(), AllocError>
        requires { PlansBelow C.database self.now (suc (expr_weight value.now)) F.pre F.post }
        ensures { IfOk result (λ _. IsWritten (tree_view value.now) → (e : Tree)
            → AreOneWhere e (tree_view operand.now) (tree_view value.now)
            → AreFixed self.now.planner.now.scope heading.now e fixed.old.items
            → AreFixed self.now.planner.now.scope heading.now e fixed.new.items) }
    {
        let Expr::Name(name) = operand else {
            return Ok(());
        };
        if !may_fix(self.planner, heading, name, value)? {
            return Ok(());
        }
        let name = name.try_clone()?;
        let value = self.step_of(value)?;
        Ok(fixed.push(FixedValue { name, value })?)
    }

    /// Puts the attributes of the heading that the condition's conjuncts fix after the others, each
    /// with the step of its value.
    fn put_fixed_values(
        &self,
        condition: &Expr,
        heading: &Heading,
        fixed: &mut Vec<FixedValue>,
    ) -> Result<(), AllocError>
        requires { PlansBelow C.database self.now (suc (expr_weight condition.now)) F.pre F.post }
        ensures { IfOk result (λ _. IsWritten (tree_view condition.now) → (e : Tree)
            → Implies e (tree_view condition.now)
            → AreFixed self.now.planner.now.scope heading.now e fixed.old.items
            → AreFixed self.now.planner.now.scope heading.now e fixed.new.items) }
    {
        match condition {
            Expr::Parentheses(inner) => self.put_fixed_values(inner, heading, fixed),
            Expr::Binary(left, op, right) => {
                if !is_and(*op) {
                    return Ok(());
                }
                self.put_fixed_values(left, heading, fixed)?;
                self.put_fixed_values(right, heading, fixed)
            }
            Expr::Compare(left, op, right) => {
                if !is_equal(*op) {
                    return Ok(());
                }
                self.put_fixed_value(right, left, heading, fixed)?;
                self.put_fixed_value(left, right, heading, fixed)
            }
            _ => Ok(()),
        }
    }

    /// The attributes of the heading that the condition's conjuncts fix, each with the step of its
    /// value.
    pub(crate) fn fixed_values(
        &self,
        condition: &Expr,
        heading: &Heading,
    ) -> Result<Vec<FixedValue>, AllocError>
        requires { PlansBelow C.database self.now (suc (expr_weight condition.now)) F.pre F.post }
        ensures { IfOk result (λ fixed. IsWritten (tree_view condition.now)
            → AreFixed self.now.planner.now.scope heading.now (tree_view condition.now)
            fixed.items) }
    {
        let mut fixed = Vec::new(self.planner.alloc);
        self.put_fixed_values(condition, heading, &mut fixed)?;
        Ok(fixed)
    }
}
