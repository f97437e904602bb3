//! Laws of lists of calls of a cutter.
ghost use Rattle.std.specs.Prelude.{◌≡◌, ◌++◌, ℕ, List, IsFalse, IsNone, IsTrue};
ghost use Rattle.td_scan.specs.laws.Calls.{Call, IsAllowed, course, statements_before};
ghost use Rattle.td_scan.specs.laws.Calls.{statements_held};
ghost use Rattle.td_tree.specs.model.Statements.{first_statement, statements};

/// Whatever calls were made, the statements taken off are the first of all the bytes that were fed,
/// and the others are those of what is still held.
#[tactic(auto, using(crate::proofs::CourseLaws::taken_first))]
pub fn taken_off_are_the_first()
    ensures { (calls : List Call) → IsAllowed calls
        → statements 0 (course calls).fed
        ≡ (course calls).taken ++ statements_held (course calls).held }
{}

/// Until the cutter is finished that holds whatever is still to come.
#[tactic(auto, using(crate::proofs::CourseLaws::taken_stay))]
pub fn taken_off_stay_the_first()
    ensures { (calls : List Call) (more : List ℕ) → IsAllowed calls
        → IsFalse (course calls).held.finished
        → statements 0 ((course calls).fed ++ more)
        ≡ (course calls).taken ++ statements_before (course calls).held more }
{}

/// A finished cutter from which no more can be taken off has given all statements of the script.
#[tactic(auto, using(crate::proofs::CourseLaws::taken_all))]
pub fn all_are_taken_off()
    ensures { (calls : List Call) → IsAllowed calls → IsTrue (course calls).held.finished
        → IsNone (first_statement (course calls).held)
        → (course calls).taken ≡ statements 0 (course calls).fed }
{}
