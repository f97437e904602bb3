//! The causes of several answers, of which the least is named.
ghost use Rattle.std.specs.Prelude.{◌≡◌, IfOk, None, Some};
ghost use Rattle.td_tree.specs.code.Gatherings.{IsCollected, IsRest, answer_of, both_answers};
ghost use Rattle.td_tree.specs.code.Gatherings.{cause_of, lesser_cause};

use crate::cause::Cause;
use crate::fault::Fault;
use std::alloc::AllocError;
use std::marker::Model;

/// The least of the causes of the answers that were added, seen as that cause.
#[derive(Drop)]
pub struct Gathering {
    least: Option<Cause>,
}

impl Model for Gathering {
    ghost use Rattle.std.specs.Prelude.{Option};
    ghost use Rattle.td_tree.specs.code.CauseCode.{cause_if_any_code};
    ghost use Rattle.td_tree.specs.declared.cause.Cause.{Cause};

    ghost Value = { Option Cause };

    ghost coded = { cause_if_any_code };

    ghost view = { λ a. a.least };
}

impl Cause {
    ghost use Rattle.td_tree.specs.model.Outcomes.{lesser};

    /// The one of two causes with the lesser number.
    pub fn lesser(self, other: Cause) -> Cause
        ensures { result ≡ lesser self other }
    {
        if self.number() <= other.number() {
            self
        } else {
            other
        }
    }
}

impl Gathering {
    /// No cause.
    pub fn new() -> Gathering
        ensures { result ≡ None }
    {
        Gathering { least: None }
    }

    /// The answer's value. Where it is refused there is none, and its cause is gathered.
    pub fn add<T: Drop>(&mut self, answer: Result<T, Fault>) -> Result<Option<T>, AllocError>
        ensures rest { IsRest answer result }
        ensures cause { self.new ≡ lesser_cause self.old (cause_of answer) }
    {
        match answer {
            Ok(value) => Ok(Some(value)),
            Err(Fault::Refused(cause)) => {
                self.least = Some(self.least_with(cause));
                Ok(None)
            }
            Err(Fault::Memory) => Err(AllocError),
        }
    }

    /// The answer's value is put to the values. Where it is refused there is none, and its cause is
    /// gathered.
    pub fn collect<T: Drop>(
        &mut self,
        values: &mut Vec<T>,
        answer: Result<T, Fault>,
    ) -> Result<(), AllocError>
        ensures { IfOk result (λ _. IsCollected answer
            self.old values.old.items self.new values.new.items) }
    {
        if let Some(value) = self.add(answer)? {
            values.push(value)?;
        }
        Ok(())
    }

    /// The least cause with one more.
    fn least_with(&self, cause: Cause) -> Cause
        ensures { lesser_cause self.now (Some cause) ≡ Some result }
    {
        match self.least {
            Some(least) => least.lesser(cause),
            None => cause,
        }
    }

    /// The value, or the least of the causes if there is one.
    pub fn finish<T: Drop>(self, value: T) -> Result<T, Fault>
        ensures { result ≡ answer_of self value }
    {
        match self.least {
            Some(cause) => Err(Fault::Refused(cause)),
            None => Ok(value),
        }
    }
}

/// Both values, or the least of the causes.
pub fn both<A: Drop, B: Drop>(
    first: Result<A, Fault>,
    second: Result<B, Fault>,
) -> Result<(A, B), Fault>
    ensures { result ≡ both_answers first second }
{
    match (first, second) {
        (Ok(a), Ok(b)) => Ok((a, b)),
        (Err(Fault::Refused(c)), Err(Fault::Refused(d))) => Err(Fault::Refused(c.lesser(d))),
        (Err(Fault::Memory), _) | (_, Err(Fault::Memory)) => Err(Fault::Memory),
        (Err(refused), Ok(_)) | (Ok(_), Err(refused)) => Err(refused),
    }
}
