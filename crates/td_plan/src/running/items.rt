//! The items of SUMMARIZE: aggregates, each with the step beside it.
ghost use Rattle.std.specs.Prelude.{◌≡◌, ◌<◌, ◌≤◌, List, Some, length, map};
ghost use Rattle.std.specs.List.{slice_get, zip};
ghost use Rattle.td_eval.specs.code.Totals.{total_view};
ghost use Rattle.td_tree.specs.model.Outcomes.{Answers, Outcome, Valued, with_value};
ghost use Rattle.td_value.specs.model.Values.{Val};

use crate::plan::step::Step;
use td_group::aggregates::Agg;
use td_tree::fault::Fault;
use td_value::value::Value;

/// The aggregate with the values that it is of in each group.
pub(crate) fn with_aggregate(
    asked: Agg,
    groups: Result<Vec<Vec<Value>>, Fault>,
) -> Result<(Agg, Vec<Vec<Value>>), Fault>
    ensures { (o : Outcome (List (List Val)))
        → Answers (λ vss. map (λ vs. vs.items) vss.items) groups o
        → Answers total_view result (with_value o (λ vss. Valued (asked, vss))) }
{
    Ok((asked, groups?))
}

/// How many aggregates have a step beside them.
pub(crate) fn item_count(aggregates: &[Agg], steps: &[Step]) -> usize
    ensures count { result ≡ length (zip aggregates.now steps.now) }
    ensures aggregates { result ≤ length aggregates.now }
    ensures steps { result ≤ length steps.now }
{
    aggregates.len().min(steps.len())
}

/// The aggregate at a place.
pub(crate) fn aggregate_at(aggregates: &[Agg], place: usize) -> Agg
    requires { place < length aggregates.now }
    ensures { slice_get aggregates.now place ≡ Some result }
{
    aggregates[place]
}
