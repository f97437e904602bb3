//! Why a call gives no value.
ghost use Rattle.std.specs.Prelude.{◌≡◌, IfOk, Ok};
ghost use Rattle.td_tree.specs.model.Outcomes.{IsUnrefused};

use crate::cause::Cause;
use std::alloc::{AllocError, AllocFailed};
use thiserror::Error;

/// A refusal, or want of memory.
#[derive(Clone, Copy, Debug, PartialEq, Eq, Error)]
pub enum Fault {
    /// The request is refused, by this cause.
    #[error("refused: {0}")]
    Refused(Cause),
    /// A request for memory was refused: it names no cause.
    #[error("out of memory")]
    Memory,
}

impl From<AllocError> for Fault {
    ghost use Rattle.std.specs.Prelude.{◌≡◌};
    ghost use Rattle.td_tree.specs.declared.fault.Fault.TheVariants.{Memory};

    ghost from_gives = { λ _ e. e ≡ Memory };

    fn from(_error: AllocError) -> Fault {
        Fault::Memory
    }
}

impl<T: Drop> From<AllocFailed<T>> for Fault {
    ghost use Rattle.std.specs.Prelude.{◌≡◌};
    ghost use Rattle.td_tree.specs.declared.fault.Fault.TheVariants.{Memory};

    ghost from_gives = { λ _ e. e ≡ Memory };

    fn from(_error: AllocFailed<T>) -> Fault {
        Fault::Memory
    }
}

/// The answer of a call that asks what holds, so that it can want memory alone.
pub fn without_refusal<T: Drop>(answer: Result<T, Fault>) -> Result<T, AllocError>
    requires { IsUnrefused answer }
    ensures { IfOk result (λ value. answer ≡ Ok value) }
{
    match answer {
        Ok(value) => Ok(value),
        Err(Fault::Memory) => Err(AllocError),
        Err(Fault::Refused(_)) => unreachable!(),
    }
}
