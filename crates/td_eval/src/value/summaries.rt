//! The value of SUMMARIZE: its items are gone through in the tuples of each group.
ghost use Rattle.std.specs.Prelude.{map, reverse};
ghost use Rattle.td_check.specs.model.Scopes.{entered_with};
ghost use Rattle.td_eval.specs.model.AggregateValues.{summary_attributes, summary_value};
ghost use Rattle.td_eval.specs.code.LentWorlds.{IsLentWorld, seen_by};
ghost use Rattle.td_eval.specs.code.Totals.{term_in, total_of, total_view};
ghost use Rattle.td_eval.specs.model.TreeValues.{items_in_tuples};
ghost use Rattle.td_eval.specs.model.Worlds.{with_tuples};
ghost use Rattle.td_tree.specs.model.Outcomes.{Answers, gathered};
ghost use Rattle.td_tree.specs.code.TreeViews.{summaries_view};

use crate::lent_world::LentWorld;
use crate::operators::aggregates::terms;
use crate::operators::relational::relations;
use crate::operators::summaries::{extended_per, groups_by_per, with_aggregate};
use crate::value::values_in_rows;
use td_body::body::Body;
use td_group::aggregates::Agg;
use td_tree::expression::Summary;
use td_tree::fault::Fault;
use td_tree::gathering::Gathering;
use td_value::relation::Rel;
use td_value::tuple::Tuple;
use td_value::value::Value;

/// The values of the expression of a SUMMARIZE item in the tuples of a group.
#[cycle(value)]
fn item_in_group<B: Body>(
    lent: &LentWorld<'_, B>,
    tuples: &[Tuple],
    group: &Rel,
    item: &Summary,
) -> Result<Vec<Value>, Fault>
    requires { IsLentWorld lent.now }
    ensures { Answers (λ vs. vs.items) result (gathered
        (map (term_in (seen_by lent.now) (reverse tuples.now) item.now) group.now.body)) }
{
    match item {
        Summary::Count(_) => Ok(terms(lent.alloc, group)?),
        Summary::Of(_, value, _) => values_in_rows(lent, tuples, group, value),
    }
}

/// The values of the expression of a SUMMARIZE item in the tuples of each group.
#[cycle(value)]
fn item_in_groups<B: Body>(
    lent: &LentWorld<'_, B>,
    tuples: &[Tuple],
    groups: &[(Tuple, Rel)],
    item: &Summary,
) -> Result<Vec<Vec<Value>>, Fault>
    requires { IsLentWorld lent.now }
    ensures { Answers (λ vss. map (λ vs. vs.items) vss.items) result (gathered (map (λ g. gathered
        (map (term_in (seen_by lent.now) (reverse tuples.now) item.now) g.1.body))
        groups.now)) }
{
    let mut causes = Gathering::new();
    let mut values = Vec::with_capacity(lent.alloc, groups.len())?;
    for (_, group) in groups {
        let found = item_in_group(lent, tuples, group, item);
        causes.collect(&mut values, found)?;
    }
    causes.finish(values)
}

/// What the items of SUMMARIZE are of in the groups, with their aggregates.
#[cycle(value)]
fn totals<B: Body>(
    lent: &LentWorld<'_, B>,
    tuples: &[Tuple],
    groups: &[(Tuple, Rel)],
    items: &[Summary],
) -> Result<Vec<(Agg, Vec<Vec<Value>>)>, Fault>
    requires { IsLentWorld lent.now }
    ensures { Answers (λ ts. map total_view ts.items) result (gathered
        (map (total_of groups.now) (items_in_tuples (seen_by lent.now) (reverse tuples.now)
        (summaries_view items.now)))) }
{
    let mut causes = Gathering::new();
    let mut totals = Vec::with_capacity(lent.alloc, items.len())?;
    for item in items {
        let total = with_aggregate(item, item_in_groups(lent, tuples, groups, item));
        causes.collect(&mut totals, total)?;
    }
    causes.finish(totals)
}

/// The tuples of PER, each with what the items give of its group.
#[cycle(value)]
pub(crate) fn summary<B: Body>(
    lent: &LentWorld<'_, B>,
    tuples: &[Tuple],
    operand: &Value,
    per: &Value,
    items: &[Summary],
) -> Result<Value, Fault>
    requires { IsLentWorld lent.now }
    ensures { Answers (λ v. v) result (summary_value
        (λ h. summary_attributes (entered_with h
        (with_tuples (seen_by lent.now).scope (reverse tuples.now))) (summaries_view items.now))
        (items_in_tuples (seen_by lent.now) (reverse tuples.now) (summaries_view items.now))
        operand.now per.now) }
{
    let (rel, per) = relations(operand, per)?;
    let groups = groups_by_per(lent.alloc, rel, per)?;
    let totals = totals(lent, tuples, &groups, items)?;
    extended_per(lent, tuples, rel, per, items, &totals)
}
