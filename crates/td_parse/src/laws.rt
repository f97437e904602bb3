//! Laws of what tokens spell: one tree for each list of lexemes, and reading finds it.
ghost use Rattle.std.specs.Prelude.{◌≡◌, ◌≤◌, ◌↔◌, List, Some};
ghost use Rattle.td_parse.specs.laws.MeaningLaws.{TokensHaveOneMeaning};
ghost use Rattle.td_parse.specs.code.ReadingStatements.{read_expression, read_statement};
ghost use Rattle.td_tree.specs.declared.operator.Level.{Level};
ghost use Rattle.td_tree.specs.model.Grammar.{IsExpression, Spelling, TypeSpelling, height_limit};
ghost use Rattle.td_tree.specs.model.Grammar.{loosest};
ghost use Rattle.td_tree.specs.model.Heights.{height};
ghost use Rattle.td_tree.specs.model.Lexemes.{Lexeme};
ghost use Rattle.td_tree.specs.model.StatementGrammar.{StatementSpelling};
ghost use Rattle.td_tree.specs.model.Trees.{Statement, Tree, TypeTree};

/// Every list of tokens means one statement, or is refused by one cause alone, and means
/// nothing else.
pub fn tokens_have_one_meaning()
    ensures { TokensHaveOneMeaning }
{}

/// No lexemes spell two statements.
#[tactic(auto, using(crate::proofs::OneTree::one_statement))]
pub fn one_tree()
    ensures { (xs : List Lexeme) (a b : Statement) → StatementSpelling xs a → StatementSpelling xs b
        → a ≡ b }
{}

/// No lexemes spell two expressions of a level.
#[tactic(auto, using(crate::proofs::OneTree::one_expression))]
pub fn one_tree_of_an_expression()
    ensures { (level : Level) (xs : List Lexeme) (a b : Tree) → IsExpression level xs a
        → IsExpression level xs b → a ≡ b }
{}

/// No lexemes spell two types.
#[tactic(auto, using(crate::proofs::OneTree::one_type))]
pub fn one_tree_of_a_type()
    ensures { (xs : List Lexeme) (a b : TypeTree) → TypeSpelling xs a → TypeSpelling xs b → a ≡ b }
{}

/// Reading gives the statement that is spelled, and nothing where none is.
#[tactic(auto, using(crate::proofs::ReadingLaws::reads_statements))]
pub fn statements_are_read()
    ensures { (xs : List Lexeme) (t : Statement)
        → (read_statement xs ≡ Some t) ↔ StatementSpelling xs t }
{}

/// Reading gives the expression that is spelled and not too high, and nothing where none is.
#[tactic(auto, using(crate::proofs::ReadingLaws::spelled_is_read, crate::proofs::ReadingLaws::read_is_spelled, crate::proofs::ReadingLaws::read_is_low))]
pub fn expressions_are_read()
    ensures read { (xs : List Lexeme) (t : Tree) → IsExpression loosest xs t
        → read_expression xs ≡ Some t }
    ensures spelled { (xs : List Lexeme) (t : Tree) → read_expression xs ≡ Some t
        → Spelling loosest xs t }
    ensures low { (xs : List Lexeme) (t : Tree) → read_expression xs ≡ Some t
        → height t ≤ height_limit }
{}
