//! The way back.
ghost use Rattle.std.specs.Prelude.{◌≡◌, ◌∷◌, ◌++◌, [], ◌<◌, false, length, slice_set, true};
ghost use Rattle.std.specs.List.{All};
ghost use Rattle.td_body.specs.code.KeyIndexes.{IsLinked};
ghost use Rattle.td_body.specs.code.Logs.{is_proper, kept_by};
ghost use Rattle.td_body.specs.code.Members.{IsBefore, WasBefore, places_in, tuples_of};
ghost use Rattle.td_body.specs.code.Numbered.{live, repeats, tuple_eq};
ghost use Rattle.td_body.specs.code.Turns.{EachTurned, Links};

use super::index::KeyIndex;
use super::indexes::{link_every, take_last_every};
use super::rows::Rows;
use super::step::Step;

/// Clears the mark of the tuple of a number, which every index finds again.
fn put_back(rows: &mut Rows, indexes: &mut Vec<KeyIndex>, number: usize)
    requires within { number < length rows.old.rows }
    requires linked { All (IsLinked rows.old.rows rows.old.gone) indexes.old.items }
    ensures gone { rows.new.gone ≡ slice_set rows.old.gone number false }
    ensures rows { rows.new.rows ≡ rows.old.rows }
    ensures fixed { rows.new.fixed ≡ rows.old.fixed }
    ensures heading { rows.new.heading ≡ rows.old.heading }
    ensures linked { All (IsLinked rows.new.rows rows.new.gone) indexes.new.items }
    ensures turned { EachTurned (Links rows.old.rows rows.old.gone number) indexes.old.items
        indexes.new.items }
{
    link_every(indexes, rows, number);
    rows.mark(number, false);
}

/// Undoes the steps since a set was kept last. It takes no memory.
pub(crate) fn undo_steps(rows: &mut Rows, indexes: &mut Vec<KeyIndex>, log: &mut Vec<Step>)
    requires kept { 0 < length (kept_by length log.old.items rows.old.rows rows.old.gone) }
    requires proper { is_proper rows.old.fixed log.old.items rows.old.rows rows.old.gone ≡ true }
    requires linked { All (IsLinked rows.old.rows rows.old.gone) indexes.old.items }
    requires clashes { All (IsBefore log.old.items rows.old.rows rows.old.gone) indexes.old.items }
    ensures counts { kept_by length log.old.items rows.old.rows rows.old.gone
        ≡ kept_by length log.new.items rows.new.rows rows.new.gone
        ++ length (live rows.new.rows rows.new.gone) ∷ [] }
    ensures sets { kept_by tuples_of log.old.items rows.old.rows rows.old.gone
        ≡ kept_by tuples_of log.new.items rows.new.rows rows.new.gone
        ++ tuples_of (live rows.new.rows rows.new.gone) ∷ [] }
    ensures marks { length rows.new.gone ≡ length rows.new.rows }
    ensures apart { repeats tuple_eq (live rows.new.rows rows.new.gone) ≡ 0 }
    ensures proper { is_proper rows.new.fixed log.new.items rows.new.rows rows.new.gone ≡ true }
    ensures linked { All (IsLinked rows.new.rows rows.new.gone) indexes.new.items }
    ensures clashes { All (WasBefore log.new.items rows.new.rows rows.new.gone)
        indexes.new.items }
    ensures places { places_in indexes.new.items ≡ places_in indexes.old.items }
    ensures heading { rows.new.heading ≡ rows.old.heading }
{
    'steps: while let Some(step) = log.pop() {
        match step {
            Step::Kept => {
                let _count = rows.count();
                return;
            }
            Step::Added => {
                let _count = rows.count();
                let tuple = rows.pop();
                take_last_every(indexes, &tuple);
            }
            Step::Dropped(number) => put_back(rows, indexes, number),
        }
    }
}
