//! Laws of causes, pieces, tokens and statements.
ghost use Rattle.std.specs.Prelude.{◌≡◌, ◌+◌, ◌++◌, ◌↔◌, ℕ, List, Some, length};
ghost use Rattle.std.specs.List.{flat_map};
ghost use Rattle.td_tree.specs.declared.piece.Piece.{Piece};
ghost use Rattle.td_tree.specs.declared.token.Kind.TheVariants as kinds;
ghost use Rattle.td_tree.specs.laws.Apart.{TextsApartAreSeenEach, TextsApartAreThePieces};
ghost use Rattle.td_tree.specs.laws.NameLaws.{BytesCompareAsCodePoints};
ghost use Rattle.td_tree.specs.laws.CauseLaws.{LeastIsNamed};
ghost use Rattle.td_tree.specs.model.Pieces.{kind_of, pieces, state, text_kind};
ghost use Rattle.td_tree.specs.laws.Spans.{AreOfTheirKind, AreSlices, AreTexts, Ascends};
ghost use Rattle.td_tree.specs.laws.Spellings.{IsSpelled, characters};
ghost use Rattle.td_tree.specs.model.Statements.{PlacedToken, first_ended, statements};
ghost use Rattle.td_tree.specs.model.Statements.{tokens};
ghost use Rattle.td_tree.specs.laws.TokenLaws.{AreLongest, AreStatements, AreSymbols};
ghost use Rattle.td_tree.specs.model.Symbols.{Symbol, symbols};
ghost use Rattle.td_tree.specs.model.TextTokens.{IsQuotedText, content, text_in_quotes};

/// The cause that is named is one of those that there are, and none of them has a lesser number.
pub fn the_least_cause_is_named()
    ensures { LeastIsNamed }
{}

/// Names and texts compare by their bytes in UTF-8 as they do by the code points of their
/// characters.
#[tactic(auto, using(crate::proofs::law_lemmas::ByteOrder::bytes_compare))]
pub fn bytes_compare_as_code_points()
    ensures { BytesCompareAsCodePoints }
{}

/// The symbols of bytes spell them, each a character of UTF-8, or one byte where none begins.
#[tactic(auto, using(crate::proofs::law_lemmas::DecodeLaws::are_symbols))]
pub fn symbols_are_characters()
    ensures { (bytes : List ℕ) → AreSymbols (symbols bytes) bytes }
{}

/// The pieces of bytes are a division into longest pieces.
#[tactic(auto, using(crate::proofs::law_lemmas::EndOfStatement::divides))]
pub fn pieces_are_longest()
    ensures { (bytes : List ℕ) → AreLongest (pieces bytes) bytes }
{}

/// There is no other division into longest pieces.
#[tactic(auto, using(crate::proofs::law_lemmas::EndOfStatement::one_division))]
pub fn one_division()
    ensures { (ps : List (List Symbol)) (bytes : List ℕ) → AreLongest ps bytes → ps ≡ pieces bytes }
{}

/// A piece is what the language's words say of its characters: a blank, a comment, a word, a
/// number, a text, a sign, a comment or a text that nothing ends, or one symbol that begins none of
/// these.
#[tactic(auto, using(crate::proofs::law_lemmas::KindLaws::as_spelled))]
pub fn pieces_are_as_spelled()
    ensures { (p : List Symbol) (piece : Piece) → (state p ≡ Some piece)
        ↔ IsSpelled piece (characters p) }
{}

/// Each token is the slice of the script at its span.
#[tactic(auto, using(crate::proofs::law_lemmas::TokenLaws::slices))]
pub fn tokens_are_slices()
    ensures { (script : List ℕ) → AreSlices script (tokens 0 script) }
{}

/// What a token is, its bytes say.
#[tactic(auto, using(crate::proofs::law_lemmas::SliceLaws::kinds))]
pub fn tokens_are_of_their_kind()
    ensures { (at : ℕ) (bytes : List ℕ) → AreOfTheirKind (tokens at bytes) }
{}

/// Bytes are a text exactly where they are a text in quotes that says UTF-8.
#[tactic(auto, using(crate::proofs::law_lemmas::QuotedLaws::are_quoted))]
pub fn texts_are_quoted()
    ensures { (text : List ℕ) → (kind_of (symbols text) ≡ Some kinds.Text) ↔ IsQuotedText text }
{}

/// Each text among the tokens is a text in quotes that says UTF-8.
#[tactic(auto, using(crate::proofs::law_lemmas::QuotedLaws::texts))]
pub fn tokens_are_texts()
    ensures { (at : ℕ) (bytes : List ℕ) → AreTexts (tokens at bytes) }
{}

/// A text in quotes is one token: a text where it says UTF-8, else a bad one.
#[tactic(auto, using(crate::proofs::law_lemmas::QuotedLaws::quoted_kind))]
pub fn quoted_is_one_token()
    ensures { (said : List ℕ) → kind_of (symbols (text_in_quotes said)) ≡ Some (text_kind said) }
{}

/// A text in quotes says what stands between its quotes.
#[tactic(auto, using(crate::proofs::law_lemmas::TextTokenLaws::content_quoted))]
pub fn quoted_says()
    ensures { (said : List ℕ) → content (text_in_quotes said) ≡ said }
{}

/// Spans ascend.
#[tactic(auto, using(crate::proofs::law_lemmas::TokenLaws::ascends))]
pub fn spans_ascend()
    ensures { (at : ℕ) (bytes : List ℕ) → Ascends at (at + length bytes) (tokens at bytes) }
{}

/// The statements hold the tokens, all of them and in order.
#[tactic(auto, using(crate::proofs::law_lemmas::TokenLaws::all_tokens))]
pub fn statements_hold_the_tokens()
    ensures { (at : ℕ) (bytes : List ℕ) → flat_map (λ s. s) (statements at bytes)
        ≡ tokens at bytes }
{}

/// A statement goes up to and with its `;`, and tokens left after the last `;` are one more.
#[tactic(auto, using(crate::proofs::law_lemmas::TokenLaws::are_statements))]
pub fn statements_end()
    ensures { (at : ℕ) (bytes : List ℕ) → AreStatements (statements at bytes) }
{}

/// Tokens are cut into statements in no other way.
#[tactic(auto, using(crate::proofs::law_lemmas::TokenLaws::one_cut))]
pub fn one_cut_into_statements()
    ensures { (at : ℕ) (bytes : List ℕ) (ss : List (List PlacedToken)) → AreStatements ss
        → flat_map (λ s. s) ss ≡ tokens at bytes → ss ≡ statements at bytes }
{}

/// A statement that `;` ends is the same in every continuation of the bytes.
#[tactic(auto, using(crate::proofs::law_lemmas::HeldLaws::up_to_first))]
pub fn same_in_every_continuation()
    ensures { (at : ℕ) (bytes : List ℕ) (first : List PlacedToken)
        → first_ended at bytes ≡ Some first
        → (later : List ℕ) → first_ended at (bytes ++ later) ≡ Some first }
{}

/// Texts of which no two neighbours could be one piece are the pieces of what they make, and the
/// grammar sees of that what it sees of each.
#[tactic(auto, using(crate::proofs::law_lemmas::ApartRows::are_the_pieces, crate::proofs::law_lemmas::ApartRows::are_seen_each))]
pub fn texts_apart_are_pieces()
    ensures pieces { TextsApartAreThePieces }
    ensures lexemes { TextsApartAreSeenEach }
{}
