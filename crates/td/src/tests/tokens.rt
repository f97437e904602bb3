//! Tokens of scripts in pieces, and tokens that spell nothing.
use super::texts::statement;
use td_scan::cutter::Cutter;
use td_scan::token::Token;
use td_tree::cause::Cause;
use td_tree::fault::Fault;
use td_tree::keyword::Keyword;
use td_tree::token::{Kind, Sign};

fn stands(token: &Token<'_>, kind: Kind, text: &[u8], start: u64, stop: u64) -> bool {
    token.kind() == kind && token.text() == text && token.start() == start && token.stop() == stop
}

/// Whether the tokens are those of WRITE 1;.
fn are_whole(tokens: &[Token<'_>]) -> bool {
    tokens.len() == 3
        && stands(&tokens[0], Kind::Reserved(Keyword::Write), b"WRITE", 0, 5)
        && stands(&tokens[1], Kind::Number, b"1", 6, 7)
        && stands(&tokens[2], Kind::Sign(Sign::Semicolon), b";", 7, 8)
}

/// Whether the statement WRITE 1; was fed.
fn is_fed(cutter: &Cutter) -> bool {
    let found = cutter.next_statement();
    let is_fed = match &found {
        Ok(Some(tokens)) => are_whole(tokens),
        _ => false,
    };
    drop(found);
    is_fed
}

/// Whether no whole statement was fed.
fn is_awaited(cutter: &Cutter) -> bool {
    let found = cutter.next_statement();
    let is_awaited = matches!(&found, Ok(None));
    drop(found);
    is_awaited
}

#[test]
fn a_word_fed_in_two_pieces(rt: HostRuntime) {
    let mut cutter = Cutter::new(rt.alloc());
    assert!(rt; cutter.feed(b"WRI").is_ok());
    assert!(rt; is_awaited(&cutter));
    assert!(rt; cutter.feed(b"TE 1;").is_ok());
    assert!(rt; is_fed(&cutter));
    cutter.take_statement();
    assert!(rt; is_awaited(&cutter));
}

const NO_STATEMENTS: &[(&str, Cause)] = &[
    ("WRITE 1", Cause::Syntax),
    ("WRITE 1 = 1 = 1;", Cause::Syntax),
    ("WRITE ''';", Cause::Scan),
    // a bad token comes first
    ("WRITE ) 'a", Cause::Scan),
];

#[test]
fn tokens_that_spell_no_statement(rt: HostRuntime) {
    for (script, cause) in NO_STATEMENTS {
        let found = statement(rt.alloc(), script).err();
        assert!(rt; found == Some(Fault::Refused(*cause)), "{script}");
    }
}
