//! The answers to statements.
ghost use Rattle.std.specs.Prelude.{◌≡◌, ◌++◌, codes, IfOk, None, Some, IsTrue, IsFalse};
ghost use Rattle.std.specs.String.{string_bytes};
ghost use Rattle.td_tree.specs.declared.cause.Cause.TheVariants as causes;
ghost use Rattle.td_engine.specs.model.Machine.{ok_text};
ghost use Rattle.td_engine.specs.model.Refusals.{cause_text, line, named_text};

use std::alloc::{AllocError, Global};
use td_tree::cause::Cause;
use td_tree::name::Name;

/// The answer to a statement.
#[derive(Drop)]
pub struct Answer {
    pub accepted: bool,
    /// Why the statement is refused.
    pub cause: Option<Cause>,
    /// What is printed, its newline with it.
    pub text: String,
}

/// Ends a text by a newline.
pub(crate) fn line(text: String) -> Result<String, AllocError>
    ensures { IfOk result (λ s. string_bytes s ≡ line (string_bytes text)) }
{
    let mut text = text;
    text.push_str("\n")?;
    Ok(text)
}

/// `REFUSED`, the cause's number and its name.
fn refusal(alloc: Global, cause: Cause) -> Result<String, AllocError>
    ensures { IfOk result (λ s. string_bytes s ≡ cause_text cause) }
{
    let mut buffer = itoa::Buffer::new();
    let mut text = String::from_str(alloc, "REFUSED ")?;
    text.push_str(buffer.format(cause.number()))?;
    text.push_str(" ")?;
    text.push_str(cause.name())?;
    Ok(text)
}

impl Answer {
    /// A statement that is accepted and prints this, its newline with it.
    pub fn with_text(text: String) -> Answer
        ensures flag { IsTrue result.accepted × (result.cause ≡ None) }
        ensures text { string_bytes result.text ≡ string_bytes text }
    {
        Answer {
            accepted: true,
            cause: None,
            text,
        }
    }

    /// A statement that is accepted and prints no value.
    pub fn ok(alloc: Global) -> Result<Answer, AllocError>
        ensures flag { IfOk result (λ a. IsTrue a.accepted × (a.cause ≡ None)) }
        ensures text { IfOk result (λ a. string_bytes a.text ≡ ok_text) }
    {
        Ok(Answer::with_text(line(String::from_str(alloc, "OK")?)?))
    }

    /// A statement that is refused by this cause.
    pub fn of_cause(alloc: Global, cause: Cause) -> Result<Answer, AllocError>
        ensures flag { IfOk result (λ a. IsFalse a.accepted × (a.cause ≡ Some cause)) }
        ensures text { IfOk result (λ a. string_bytes a.text ≡ line (cause_text cause)) }
    {
        let text = line(refusal(alloc, cause)?)?;
        Ok(Answer {
            accepted: false,
            cause: Some(cause),
            text,
        })
    }

    /// A statement that is refused by this cause, and what of that name is why.
    pub fn of_cause_at(alloc: Global, cause: Cause, name: &Name) -> Result<Answer, AllocError>
        ensures flag { IfOk result (λ a. IsFalse a.accepted × (a.cause ≡ Some cause)) }
        ensures text { IfOk result (λ a. string_bytes a.text
            ≡ line (named_text cause name.now)) }
    {
        let mut text = refusal(alloc, cause)?;
        text.push_str(" ")?;
        text.push_str(name.as_str())?;
        let text = line(text)?;
        Ok(Answer {
            accepted: false,
            cause: Some(cause),
            text,
        })
    }
}
