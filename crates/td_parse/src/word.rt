//! What tokens say, by their bytes.
ghost use Rattle.std.specs.Prelude.{◌≡◌, true, if◌then◌else◌, nat_le, IfOk, Some, None};
ghost use Rattle.std.specs.Rc.{rc_str_bytes};
ghost use Rattle.std.specs.Prelude.{drop};
ghost use Rattle.td_tree.specs.model.Numbers.{decimal_value, numeral_limit};
ghost use Rattle.td_tree.specs.model.Pieces.{kind_of};
ghost use Rattle.td_tree.specs.model.Symbols.{symbols};
ghost use Rattle.td_tree.specs.model.TextTokens.{content, with_quotes_undoubled};

use std::alloc::{AllocError, Global};
use std::rc::RcStr;
use td_tree::expression::MAX_MAGNITUDE;
use td_tree::name::Name;
use td_tree::token::Kind;

/// The name that a token with these bytes is.
#[tactic(auto, using(crate::proofs::Seen::name_is, crate::proofs::Seen::name_is_utf8))]
pub fn name_of(alloc: Global, text: &[u8]) -> Result<Name, AllocError>
    requires { kind_of (symbols text.now) ≡ Some Kind.Name }
    ensures { IfOk result (λ n. n ≡ text.now) }
{
    match str::from_utf8(text) {
        Ok(text) => Name::new(alloc, text),
        Err(_) => unreachable!(),
    }
}

/// What follows `THE_` in a token with these bytes.
#[tactic(auto, using(crate::proofs::Seen::behind_is_utf8, crate::proofs::Seen::component_is_long))]
pub fn component_of(alloc: Global, text: &[u8]) -> Result<RcStr, AllocError>
    requires { kind_of (symbols text.now) ≡ Some Kind.Component }
    ensures { IfOk result (λ r. rc_str_bytes r ≡ drop 4 text.now) }
{
    match str::from_utf8(&text[4..]) {
        Ok(rest) => RcStr::from_str(alloc, rest),
        Err(_) => unreachable!(),
    }
}

/// The number that a token with these bytes is; `None` where no literal spells one so large.
#[tactic(auto, using(crate::proofs::Seen::number_passes))]
pub fn number_of(text: &[u8]) -> Option<u64>
    requires { kind_of (symbols text.now) ≡ Some Kind.Number }
    ensures { result
        ≡ (if nat_le (decimal_value text.now) (numeral_limit true)
        then Some (decimal_value text.now) else None) }
{
    let mut value = 0u64;
    for digit in text {
        value = value
            .checked_mul(10)?
            .checked_add(u64::from(*digit - b'0'))?;
    }
    if value > MAX_MAGNITUDE {
        None
    } else {
        Some(value)
    }
}

/// The bytes, of each two quotes one.
fn with_quotes_undoubled(alloc: Global, bytes: &[u8]) -> Result<Vec<u8>, AllocError>
    ensures { IfOk result (λ v. v.items ≡ with_quotes_undoubled bytes.now) }
{
    let mut said = Vec::new(alloc);
    let mut rest = bytes;
    while let [first, after @ ..] = rest {
        said.push(*first)?;
        rest = match after {
            [_, after @ ..] if *first == b'\'' => after,
            _ => after,
        };
    }
    Ok(said)
}

/// What a text in quotes with these bytes says.
#[tactic(auto, using(crate::proofs::Seen::text_is_utf8, crate::proofs::Seen::text_is_long))]
pub fn text_of(alloc: Global, text: &[u8]) -> Result<RcStr, AllocError>
    requires { kind_of (symbols text.now) ≡ Some Kind.Text }
    ensures { IfOk result (λ r. rc_str_bytes r ≡ content text.now) }
{
    let said = with_quotes_undoubled(alloc, &text[1..text.len() - 1])?;
    match str::from_utf8(said.as_slice()) {
        Ok(said) => RcStr::from_str(alloc, said),
        Err(_) => unreachable!(),
    }
}
