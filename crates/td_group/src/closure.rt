//! TCLOSE: from each value along a table of successors, each value that it leads to once.
ghost use Rattle.std.specs.Prelude.{◌≡◌, ◌∷◌, ◌++◌, [], IfOk, IsTrue, List, OnOk, length, map};
ghost use Rattle.std.specs.Prelude.{option_map};
ghost use Rattle.std.specs.Prelude.{if◌then◌else◌};
ghost use Rattle.std.specs.Ordering.{eq_by_cmp};
ghost use Rattle.td_group.specs.model.Closure.{closure};
ghost use Rattle.td_group.specs.code.Successors.{AreReached, AreSeen, AreSuccessors};
ghost use Rattle.td_group.specs.code.Successors.{HaveSameValues};
ghost use Rattle.td_group.specs.code.Successors.{ArePairsFrom, with_value_added, all_added, led_to};
ghost use Rattle.td_group.specs.code.Successors.{ends_of};
ghost use Rattle.td_group.specs.code.Successors.{pair_of, start_of, starts_in, successors_at};
ghost use Rattle.td_types.specs.model.Headings.{is_closable};
ghost use Rattle.td_value.specs.model.Values.{Tuple, Val, value_cmp};
ghost use Rattle.td_value.specs.code.Blocks.{making};

use crate::groups::attribute_names;
use std::alloc::{AllocError, Global};
use std::collections::{HashMap, HashSet};
use td_value::names::NameList;
use td_value::relation::Rel;
use td_value::tuple::Tuple;
use td_value::tuples::Tuples;
use td_value::value::Value;

/// The values from which and to which a tuple of two attributes leads.
fn ends(tuple: &Tuple) -> Option<(&Value, &Value)>
    ensures { option_map (λ e. (e.0.now, e.1.now)) result ≡ ends_of tuple.now }
{
    match tuple.values() {
        [from, to] => Some((from, to)),
        _ => None,
    }
}

/// Puts the successor after the others of the value.
fn put_successor<'a>(
    alloc: Global,
    table: &mut HashMap<Value, Vec<&'a Value>>,
    from: &Value,
    to: &'a Value,
) -> Result<(), AllocError>
    ensures { (v : Val) → OnOk result (successors_at table.new v
        ≡ successors_at table.old v
        ++ (if eq_by_cmp value_cmp v from.now then to.now ∷ [] else [])) }
{
    let mut successors = table.remove(from).unwrap_or(Vec::new(alloc));
    successors.push(to)?;
    table.insert(from.try_clone()?, successors)?;
    Ok(())
}

/// Puts the value to which the row leads after the others of the one from which it does.
fn put_row<'a>(
    alloc: Global,
    table: &mut HashMap<Value, Vec<&'a Value>>,
    row: &'a Tuple,
) -> Result<(), AllocError>
    ensures { (v : Val) → OnOk result (successors_at table.new v
        ≡ successors_at table.old v ++ led_to v (ends_of row.now)) }
{
    match ends(row) {
        Some((from, to)) => put_successor(alloc, table, from, to),
        None => Ok(()),
    }
}

/// The table of successors.
fn successors_of<'a>(
    alloc: Global,
    rows: &'a [Tuple],
) -> Result<HashMap<Value, Vec<&'a Value>>, AllocError>
    ensures { IfOk result (AreSuccessors rows.now) }
{
    let mut table = HashMap::with_capacity(alloc, rows.len())?;
    for row in rows {
        put_row(alloc, &mut table, row)?;
    }
    Ok(table)
}

/// Puts the value after the others, unless it is among those seen.
fn put_unseen<'a>(
    seen: &mut HashSet<Value>,
    found: &mut Vec<&'a Value>,
    value: &'a Value,
) -> Result<(), AllocError>
    requires { AreSeen seen.old (map (λ v. v.now) found.old.items) }
    ensures found { OnOk result (map (λ v. v.now) found.new.items
        ≡ with_value_added (map (λ v. v.now) found.old.items) value.now) }
    ensures seen { OnOk result (AreSeen seen.new (map (λ v. v.now) found.new.items)) }
{
    if seen.insert(value.try_clone()?)? {
        found.push(value)?;
    }
    Ok(())
}

/// Puts each of the values after the others, unless it is among those seen.
fn put_all_unseen<'a>(
    seen: &mut HashSet<Value>,
    found: &mut Vec<&'a Value>,
    values: &[&'a Value],
) -> Result<(), AllocError>
    requires { AreSeen seen.old (map (λ v. v.now) found.old.items) }
    ensures found { OnOk result (map (λ v. v.now) found.new.items
        ≡ all_added (map (λ v. v.now) found.old.items) (map (λ v. v.now) values.now)) }
    ensures seen { OnOk result (AreSeen seen.new (map (λ v. v.now) found.new.items)) }
{
    for value in values {
        put_unseen(seen, found, value)?;
    }
    Ok(())
}

/// Puts each successor of the value after the others, unless it is among those seen.
fn put_successors<'a>(
    table: &HashMap<Value, Vec<&'a Value>>,
    value: &Value,
    seen: &mut HashSet<Value>,
    found: &mut Vec<&'a Value>,
) -> Result<(), AllocError>
    requires { AreSeen seen.old (map (λ v. v.now) found.old.items) }
    ensures found { OnOk result (map (λ v. v.now) found.new.items
        ≡ all_added (map (λ v. v.now) found.old.items) (successors_at table.now value.now)) }
    ensures seen { OnOk result (AreSeen seen.new (map (λ v. v.now) found.new.items)) }
{
    match table.get(value) {
        Some(successors) => put_all_unseen(seen, found, successors),
        None => Ok(()),
    }
}

/// The values that the start leads to, each once.
fn values_reached<'a>(
    alloc: Global,
    table: &HashMap<Value, Vec<&'a Value>>,
    start: &Value,
) -> Result<Vec<&'a Value>, AllocError>
    ensures { IfOk result (λ found.
        AreReached (successors_at table.now) start.now (map (λ v. v.now) found.items)) }
{
    let mut seen = HashSet::new(alloc);
    let mut found = Vec::new(alloc);
    put_successors(table, start, &mut seen, &mut found)?;
    let mut place = 0;
    while place < found.len() {
        let value = found[place];
        put_successors(table, value, &mut seen, &mut found)?;
        place += 1;
    }
    Ok(found)
}

/// Puts the tuples that lead from the value to each of the others after those that are made.
fn put_pairs(
    alloc: Global,
    from: &Value,
    values: &[&Value],
    made: &mut Tuples,
) -> Result<(), AllocError>
    requires { length made.old.names ≡ 2 }
    ensures { OnOk result (made.new ≡ making made.old.names (made.old.tuples
        ++ map (pair_of made.old.names from.now) (map (λ v. v.now) values.now))) }
{
    let mut row = Vec::with_capacity(alloc, 2)?;
    for value in values {
        row.push(from.try_clone()?)?;
        row.push(value.try_clone()?)?;
        made.push(&mut row)?;
    }
    Ok(())
}

/// The tuples that lead from each of the values to those that it leads to.
fn pairs_from(
    alloc: Global,
    names: &NameList,
    table: &HashMap<Value, Vec<&Value>>,
    starts: &[&Value],
) -> Result<Vec<Tuple>, AllocError>
    requires { length names.now ≡ 2 }
    ensures { IfOk result (λ pairs. ArePairsFrom (successors_at table.now) names.now
        (map (λ v. v.now) starts.now) pairs.items) }
{
    let mut made = Tuples::new(alloc, names, starts.len())?;
    for start in starts {
        put_pairs(
            alloc,
            start,
            &values_reached(alloc, table, start)?,
            &mut made,
        )?;
    }
    made.finish(alloc)
}

/// Puts the value from which the row leads after the others, unless it is the last.
fn put_start<'a>(starts: &mut Vec<&'a Value>, row: &'a Tuple) -> Result<(), AllocError>
    ensures { (vs : List Val) → OnOk result (
        HaveSameValues (map (λ v. v.now) starts.old.items) vs
        → HaveSameValues (map (λ v. v.now) starts.new.items) (vs ++ start_of (ends_of row.now))) }
{
    let Some((from, _)) = ends(row) else {
        return Ok(());
    };
    match starts.last() {
        Some(last) if *last == from => Ok(()),
        _ => Ok(starts.push(from)?),
    }
}

/// The values from which the rows lead. Rows that ascend lead from each once.
fn starts_of<'a>(alloc: Global, rows: &'a [Tuple]) -> Result<Vec<&'a Value>, AllocError>
    ensures { IfOk result (λ starts.
        HaveSameValues (map (λ v. v.now) starts.items) (starts_in rows.now)) }
{
    let mut starts = Vec::new(alloc);
    for row in rows {
        put_start(&mut starts, row)?;
    }
    Ok(starts)
}

/// The transitive closure of a relation of two attributes of one type.
pub fn tclose(alloc: Global, rel: &Rel) -> Result<Rel, AllocError>
    requires { IsTrue (is_closable rel.now.heading) }
    ensures { IfOk result (λ r. r ≡ closure rel.now) }
{
    let heading = rel.heading();
    heading.reveal();
    let names = NameList::new(alloc, attribute_names(heading)?)?;
    let table = successors_of(alloc, rel.rows())?;
    let pairs = pairs_from(alloc, &names, &table, &starts_of(alloc, rel.rows())?)?;
    Rel::new(heading.try_clone()?, pairs)
}
