//! Why a statement is not carried out.
use std::alloc::AllocError;
use td_tree::cause::Cause;
use td_tree::fault::Fault;
use td_tree::name::Name;

/// Why a statement is refused.
#[derive(Drop)]
pub(crate) enum Refusal {
    Cause(Cause),
    /// A key of the relvar of this name does not hold.
    Key(Name),
    /// The constraint of this name is FALSE.
    Constraint(Name),
}

/// A refusal, or want of memory.
#[derive(Drop)]
pub(crate) enum Failure {
    Refused(Refusal),
    Memory,
}

impl From<AllocError> for Failure {
    ghost use Rattle.std.specs.Prelude.{◌≡◌};
    ghost use Rattle.td_engine.specs.declared.refusal.Failure.TheVariants as failures;

    ghost from_gives = { λ _ f. f ≡ failures.Memory };

    fn from(_: AllocError) -> Failure {
        Failure::Memory
    }
}

impl From<Fault> for Failure {
    ghost use Rattle.std.specs.Prelude.{◌≡◌};
    ghost use Rattle.td_engine.specs.code.Carried.{failure_of};

    ghost from_gives = { λ fault f. f ≡ failure_of fault };

    fn from(fault: Fault) -> Failure {
        match fault {
            Fault::Refused(cause) => Failure::Refused(Refusal::Cause(cause)),
            Fault::Memory => Failure::Memory,
        }
    }
}
