//! What a plan is run in.
ghost use Rattle.td_eval.specs.model.Worlds.{known_outcome};
ghost use Rattle.td_plan.specs.code.Hands.{IsPlanWorld, world_around};
ghost use Rattle.td_tree.specs.model.Outcomes.{Answers};

use crate::plan::step::{Dyadic, Step};
use crate::running::evaluator::InWorld;
use crate::running::look_up::base_in;
use crate::running::memo::again;
use crate::running::partners::value_by_key;
use std::alloc::{AllocError, Global};
use td_body::body::Body;
use td_eval::env::Env;
use td_eval::names::relvar_in;
use td_tree::fault::Fault;
use td_tree::name::Name;
use td_value::value::Value;

/// A virtual relvar that has been evaluated.
#[derive(Drop)]
pub(crate) struct ValuedRelvar {
    pub(crate) name: Name,
    pub(crate) answer: Result<Value, Fault>,
}

/// The database, and the virtual relvars that have been evaluated in it.
#[derive(Drop)]
pub(crate) struct PlanWorld<'e, 'a, 'v, B: Body> {
    pub(crate) alloc: Global,
    pub(crate) env: &'e Env<'a, B>,
    pub(crate) valued: &'v [ValuedRelvar],
}

impl<B: Body> InWorld for PlanWorld<'_, '_, '_, B> {
    ghost world = { world_around };

    fn value_by_key(
        &self,
        left: &Value,
        op: Dyadic,
        right: &Step,
    ) -> Result<Option<Value>, AllocError> {
        value_by_key(self, left, op, right)
    }

    fn tuple_count(&self, step: &Step) -> Option<usize> {
        match step {
            Step::Relvar(name) => Some(base_in(self.env, name)?.body.len()),
            _ => None,
        }
    }
}

/// The value of the relvar of a name.
#[inline(never)]
pub(crate) fn relvar_value<B: Body>(
    around: &PlanWorld<'_, '_, '_, B>,
    name: &Name,
) -> Result<Value, Fault>
    requires { IsPlanWorld around.now }
    ensures { Answers (λ v. v) result
        (known_outcome ((world_around around.now).relvar name.now)) }
{
    for relvar in around.valued {
        if relvar.name == *name {
            return again(&relvar.answer);
        }
    }
    relvar_in(around.alloc, around.env, name)
}
