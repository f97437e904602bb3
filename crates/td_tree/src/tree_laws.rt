//! Laws of trees and of their texts: the text of a tree is its own tokens, and says the tree again.
ghost use Rattle.std.specs.Prelude.{ℕ, List};
ghost use Rattle.td_tree.specs.declared.operator.Level.{Level};
ghost use Rattle.td_tree.specs.model.Grammar.{IsExpression, TypeSpelling};
ghost use Rattle.td_tree.specs.model.Prints.{print, type_print};
ghost use Rattle.td_tree.specs.laws.Spaced.{AreItsOwnLexemes, AreItsOwnTypeLexemes, PrintIsSpaced};
ghost use Rattle.td_tree.specs.laws.Spaced.{TypePrintIsSpaced};
ghost use Rattle.td_tree.specs.model.Statements.{PlacedToken, tokens};
ghost use Rattle.td_tree.specs.laws.TokenLaws.{AreBadWhereSeen};
ghost use Rattle.td_tree.specs.model.TokenLexemes.{lexemes};
ghost use Rattle.td_tree.specs.model.Trees.{Tree, TypeTree};

/// An expression that some tokens spell is printed as a text whose tokens spell it.
#[tactic(auto, using(crate::proofs::law_lemmas::PrintLaws::print_spells))]
pub fn prints_spell_expressions()
    ensures { (level : Level) (ts : List PlacedToken) (t : Tree) → IsExpression level (lexemes ts) t
        → IsExpression level (lexemes (tokens 0 (print t))) t }
{}

/// A type that some tokens spell is printed as a text whose tokens spell it.
#[tactic(auto, using(crate::proofs::law_lemmas::PrintLaws::type_print_spells))]
pub fn prints_spell_types()
    ensures { (ts : List PlacedToken) (t : TypeTree) → TypeSpelling (lexemes ts) t
        → TypeSpelling (lexemes (tokens 0 (type_print t))) t }
{}

/// The grammar sees the bad tokens of a script as bad, and no other.
#[tactic(auto, using(crate::proofs::law_lemmas::BadTokens::seen))]
pub fn bad_tokens_are_seen()
    ensures { (at : ℕ) (bytes : List ℕ) → AreBadWhereSeen (tokens at bytes) }
{}

/// Whatever spells an expression is the expression's own lexemes, and its text is its own tokens
/// with one space between two.
#[tactic(auto, using(crate::proofs::law_lemmas::PrintLaws::own_lexemes, crate::proofs::law_lemmas::PrintLaws::print_is_spaced))]
pub fn expressions_are_their_own_tokens()
    ensures lexemes { AreItsOwnLexemes }
    ensures text { PrintIsSpaced }
{}

/// Whatever spells a type is the type's own lexemes, and its text is its own tokens with one space
/// between two.
#[tactic(auto, using(crate::proofs::law_lemmas::PrintLaws::own_type_lexemes, crate::proofs::law_lemmas::PrintLaws::type_print_is_spaced))]
pub fn types_are_their_own_tokens()
    ensures lexemes { AreItsOwnTypeLexemes }
    ensures text { TypePrintIsSpaced }
{}
