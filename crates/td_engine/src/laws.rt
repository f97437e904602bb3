//! Laws of the set machine: each function has its contract alone.
ghost use Rattle.std.specs.Prelude.{◌≡◌, ◌≢◌, Bool, List, None};
ghost use Rattle.td_engine.specs.laws.Additions.{ConditionsStayInTuples, EmptinessIsOfAdditions};
ghost use Rattle.td_engine.specs.laws.Additions.{ConstraintsAreTestedByAdditions, ExpressionsStay};
ghost use Rattle.td_engine.specs.laws.Additions.{ImageTestsAreOfAdditions, OperatorsKeepAdditions};
ghost use Rattle.td_engine.specs.model.Machine.{Progress, Runs, State, Step, Steps};
ghost use Rattle.td_engine.specs.laws.Rebuilding.{DumpsRebuild};
ghost use Rattle.td_engine.specs.laws.LegalityLaws.{AcceptedStatementsKeepLegality};
ghost use Rattle.td_engine.specs.laws.LegalityLaws.{RunsKeepLegality, SpelledExpressionsAreWritten};
ghost use Rattle.td_tree.specs.model.Statements.{PlacedToken};

/// Every list of statements has an outcome.
#[tactic(auto, using(crate::proofs::law_lemmas::Runs::some_outcome))]
pub fn statements_have_an_outcome()
    ensures { (stop : Bool) (so_far : Progress) (script : List (List PlacedToken))
        → (p : Progress) × Runs stop so_far script p }
{}

/// No list of statements has two outcomes.
#[tactic(auto, using(crate::proofs::law_lemmas::Runs::one_outcome))]
pub fn statements_have_one_outcome()
    ensures { (stop : Bool) (so_far : Progress) (script : List (List PlacedToken)) (p q : Progress)
        → Runs stop so_far script p → Runs stop so_far script q → p ≡ q }
{}

/// A refused statement changes nothing.
#[tactic(auto, using(crate::proofs::law_lemmas::Kept::refused_keeps))]
pub fn refused_statements_change_nothing()
    ensures { (old : State) (tokens : List PlacedToken) (s : Step State)
        → Steps old tokens s → s.cause ≢ None → s.after ≡ old }
{}

/// In an expression that some tokens spell the names are names, and the texts are UTF-8.
pub fn spelled_expressions_are_written()
    ensures { SpelledExpressionsAreWritten }
{}

/// What an accepted statement makes of a legal database is legal.
pub fn accepted_statements_keep_legality()
    ensures { AcceptedStatementsKeepLegality }
{}

/// From a legal state every run comes to legal states alone.
pub fn runs_keep_legality()
    ensures { RunsKeepLegality }
{}

/// The dump of a legal database, run from nothing, makes that database.
pub fn dumps_rebuild()
    ensures { DumpsRebuild }
{}

/// After a change of a relation, whether any of its tuples meets a condition that none met before
/// depends on those that came in.
pub fn emptiness_is_of_additions()
    ensures { EmptinessIsOfAdditions }
{}

/// A condition that names nothing which a change of a base relvar reaches has the value that it had
/// in each tuple.
pub fn conditions_stay_in_tuples()
    ensures { ConditionsStayInTuples }
{}

/// After a change of a relation, whether the image of each of its tuples passes a test, where each
/// passed it before, depends on those that came in.
pub fn image_tests_are_of_additions()
    ensures { ImageTestsAreOfAdditions }
{}

/// An expression that names nothing which a change of a base relvar reaches has the value that it
/// had, or the same causes.
pub fn expressions_stay()
    ensures { ExpressionsStay }
{}

/// Of a relation before and after a change, and of what came in, projection, renaming, restriction,
/// extension, intersection, difference, join and matching give such relations, or the same causes.
/// A question that was TRUE before, of the emptiness or the inclusion of such relations, or two of
/// them, has the same answer of what came in as after the change.
pub fn operators_keep_additions()
    ensures { OperatorsKeepAdditions }
{}

/// In a legal database, after a change of one base relvar, a constraint that asks of each of its
/// tuples comes to what it comes to where the relvar's name means the tuples that came in.
pub fn constraints_are_tested_by_additions()
    ensures { ConstraintsAreTestedByAdditions }
{}
