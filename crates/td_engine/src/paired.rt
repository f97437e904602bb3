//! A value with another beside it.
ghost use Rattle.std.specs.Prelude.{◌≡◌, Err, IfErr, IfOk, Ok};

/// The value with another beside it, which is let go where there is no value: in one step of a
/// proof, whatever it holds.
pub(crate) fn paired<A: Drop, B: Drop, E: Drop>(first: Result<A, E>, second: B) -> Result<(A, B), E>
    ensures value { IfOk result (λ both. first ≡ Ok both.0) }
    ensures other { IfOk result (λ both. both.1 ≡ second) }
    ensures fault { IfErr result (λ e. first ≡ Err e) }
{
    match first {
        Ok(first) => Ok((first, second)),
        Err(fault) => Err(fault),
    }
}
