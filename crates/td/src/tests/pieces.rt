//! The tokens of scripts that come in pieces.
ghost use Rattle.std.specs.Prelude.{◌≡◌, ◌+◌, ◌<◌, IfOk, length};

use std::alloc::{AllocError, Global};
use td_scan::cutter::Cutter;
use td_scan::token::Token;
use td_tree::keyword::Keyword;
use td_tree::token::{Kind, Sign};

/// Statements with every kind of token, comments, characters of one to four bytes, and bytes that
/// begin none.
const SCRIPT: &[u8] = b"WRITE the_x \xC3\xA4b_1 007 'it''s \xE2\x82\xAC' '' \
    := <> <= >= || { } ( ) , : = < > + - * / // line ; \xC3\xA4 'a\n\
    /* block ; ** \xE2\x82\xAC ' */;\
    \xF0\x9D\x94\x98\xE2\x82\xAC|a '\xFF'\xC3(\xE2\x82;\
    \xF0;\
    \xEF\xBB\xBF'a; \xF0\x9D";

/// Its tokens.
const TOKENS: &[(Kind, &[u8])] = &[
    (Kind::Reserved(Keyword::Write), b"WRITE"),
    (Kind::Component, b"the_x"),
    (Kind::Name, b"\xC3\xA4b_1"),
    (Kind::Number, b"007"),
    (Kind::Text, b"'it''s \xE2\x82\xAC'"),
    (Kind::Text, b"''"),
    (Kind::Sign(Sign::Assign), b":="),
    (Kind::Sign(Sign::NotEqual), b"<>"),
    (Kind::Sign(Sign::LessOrEqual), b"<="),
    (Kind::Sign(Sign::GreaterOrEqual), b">="),
    (Kind::Sign(Sign::Concatenate), b"||"),
    (Kind::Sign(Sign::OpenBrace), b"{"),
    (Kind::Sign(Sign::CloseBrace), b"}"),
    (Kind::Sign(Sign::OpenParenthesis), b"("),
    (Kind::Sign(Sign::CloseParenthesis), b")"),
    (Kind::Sign(Sign::Comma), b","),
    (Kind::Sign(Sign::Colon), b":"),
    (Kind::Sign(Sign::Equal), b"="),
    (Kind::Sign(Sign::Less), b"<"),
    (Kind::Sign(Sign::Greater), b">"),
    (Kind::Sign(Sign::Plus), b"+"),
    (Kind::Sign(Sign::Minus), b"-"),
    (Kind::Sign(Sign::Times), b"*"),
    (Kind::Sign(Sign::Divide), b"/"),
    (Kind::Sign(Sign::Semicolon), b";"),
    (Kind::Name, b"\xF0\x9D\x94\x98"),
    (Kind::Bad, b"\xE2\x82\xAC"),
    (Kind::Bad, b"|"),
    (Kind::Name, b"a"),
    (Kind::Bad, b"'\xFF'"),
    (Kind::Bad, b"\xC3"),
    (Kind::Sign(Sign::OpenParenthesis), b"("),
    (Kind::Bad, b"\xE2"),
    (Kind::Bad, b"\x82"),
    (Kind::Sign(Sign::Semicolon), b";"),
    (Kind::Bad, b"\xF0"),
    (Kind::Sign(Sign::Semicolon), b";"),
    // nothing ends it
    (Kind::Bad, b"'a; \xF0\x9D"),
];

/// A token without its bytes.
#[derive(Clone, Copy, PartialEq, Eq)]
struct Seen {
    kind: Kind,
    start: u64,
    stop: u64,
}

/// Puts what is seen of the tokens behind the others.
fn see(seen: &mut Vec<Seen>, tokens: &[Token<'_>]) -> Result<(), AllocError> {
    for token in tokens {
        seen.push(Seen {
            kind: token.kind(),
            start: token.start(),
            stop: token.stop(),
        })?;
    }
    Ok(())
}

/// Sees the first statement and takes it off, if there is one.
fn see_one(seen: &mut Vec<Seen>, cutter: &mut Cutter) -> Result<bool, AllocError>
    ensures { IfOk result (λ _. (cutter.new.finished ≡ cutter.old.finished)
        × (cutter.new.offset + length cutter.new.bytes
        ≡ cutter.old.offset + length cutter.old.bytes)) }
{
    let found = cutter.next_statement()?;
    let is_found = found.is_some();
    if let Some(tokens) = &found {
        see(seen, tokens)?;
    }
    drop(found);
    cutter.take_statement();
    Ok(is_found)
}

/// Sees all statements that there are, of which there are no more than bytes in the script.
fn see_all(seen: &mut Vec<Seen>, cutter: &mut Cutter) -> Result<(), AllocError>
    ensures { IfOk result (λ _. (cutter.new.finished ≡ cutter.old.finished)
        × (cutter.new.offset + length cutter.new.bytes
        ≡ cutter.old.offset + length cutter.old.bytes)) }
{
    for _ in 0..SCRIPT.len() {
        if !see_one(seen, cutter)? {
            return Ok(());
        }
    }
    Ok(())
}

/// The tokens of the script, of which so many bytes come first and the others in pieces of this
/// size. The statements are taken off as they come.
fn seen_in_pieces(alloc: Global, first: usize, size: usize) -> Result<Vec<Seen>, AllocError>
    requires { 0 < size }
{
    let mut seen = Vec::new(alloc);
    let mut cutter = Cutter::new(alloc);
    let (piece, mut rest) = SCRIPT.split_at(first.min(SCRIPT.len()));
    cutter.feed(piece)?;
    see_all(&mut seen, &mut cutter)?;
    while !rest.is_empty() {
        let (piece, after) = rest.split_at(size.min(rest.len()));
        cutter.feed(piece)?;
        see_all(&mut seen, &mut cutter)?;
        rest = after;
    }
    cutter.finish();
    see_all(&mut seen, &mut cutter)?;
    Ok(seen)
}

/// Whether these are the tokens of the script.
fn are_all(seen: &[Seen]) -> bool {
    if seen.len() != TOKENS.len() {
        return false;
    }
    for (seen, (kind, text)) in seen.iter().zip(TOKENS) {
        let place = seen.start as usize..seen.stop as usize;
        if seen.kind != *kind || SCRIPT.get(place) != Some(*text) {
            return false;
        }
    }
    true
}

/// Whether the script has its tokens, cut so.
fn is_whole(alloc: Global, first: usize, size: usize) -> bool
    requires { 0 < size }
{
    match seen_in_pieces(alloc, first, size) {
        Ok(seen) => are_all(&seen),
        Err(_) => false,
    }
}

#[test]
fn tokens_of_a_script_cut_at_each_place(rt: HostRuntime) {
    for first in 0..=SCRIPT.len() {
        assert!(rt; is_whole(rt.alloc(), first, SCRIPT.len()), "{first}");
    }
}

#[test]
fn tokens_of_a_script_in_small_pieces(rt: HostRuntime) {
    for size in 1..=4 {
        assert!(rt; is_whole(rt.alloc(), 0, size), "{size}");
        assert!(rt; is_whole(rt.alloc(), 1, size), "{size}");
    }
}

#[test]
fn bytes_taken_off_are_held_no_longer(rt: HostRuntime) {
    let mut cutter = Cutter::new(rt.alloc());
    assert!(rt; cutter.held() == 0);
    assert!(rt; cutter.feed(b"WRITE 1; WRI").is_ok());
    assert!(rt; cutter.held() == 12);
    cutter.take_statement();
    assert!(rt; cutter.held() == 4);
    cutter.take_statement();
    assert!(rt; cutter.held() == 4);
}
