//! The indexes of members, side by side.
ghost use Rattle.std.specs.Prelude.{◌≡◌, ◌∷◌, ◌++◌, [], ◌<◌, Bool, List, OnOk, false, length, true};
ghost use Rattle.std.specs.Prelude.{slice_index_or, slice_set};
ghost use Rattle.std.specs.List.{All};
ghost use Rattle.td_value.specs.model.Values.{Tuple};
ghost use Rattle.td_body.specs.code.KeyIndexes.{CanKeep, HasRoom, IsIndex, IsLinked};
ghost use Rattle.td_body.specs.code.Turns.{Becomes, Drops, EachTurned, Forgets, GoesBack, Keeps};
ghost use Rattle.td_body.specs.code.Turns.{Links, Stays};

use super::index::KeyIndex;
use super::rows::Rows;
use std::alloc::AllocError;
use td_value::tuple::Tuple;

/// Makes room for one tuple more in each.
fn reserve_all(indexes: &mut [KeyIndex]) -> Result<(), AllocError>
    ensures turned { EachTurned Stays indexes.old indexes.new }
    ensures room { OnOk result (All HasRoom indexes.new) }
{
    for place in 0..indexes.len() {
        let index = &mut indexes[place];
        index.reserve()?;
    }
    Ok(())
}

/// Puts a tuple behind the others in each.
fn put_in_all(indexes: &mut [KeyIndex], rows: &Rows, tuple: &Tuple)
    requires index { All (IsIndex rows.now.rows rows.now.gone) indexes.old }
    requires room { All HasRoom indexes.old }
    ensures { EachTurned (Becomes (rows.now.rows ++ tuple.now ∷ []) (rows.now.gone ++ false ∷ []))
        indexes.old indexes.new }
{
    for place in 0..indexes.len() {
        let index = &mut indexes[place];
        index.put_in(rows, tuple);
    }
}

/// Leaves out the tuple of a number, which has just been marked, in each.
fn take_out_all(indexes: &mut [KeyIndex], rows: &Rows, number: usize)
    requires within { number < length rows.now.rows }
    requires marked { slice_index_or rows.now.gone number false ≡ true }
    requires index { All (IsIndex rows.now.rows (slice_set rows.now.gone number false)) indexes.old }
    ensures { EachTurned (Becomes rows.now.rows rows.now.gone) indexes.old indexes.new }
{
    for place in 0..indexes.len() {
        let index = &mut indexes[place];
        index.take_out(rows, number);
    }
}

/// Takes the last tuple out of each.
fn take_last_all(indexes: &mut [KeyIndex], tuple: &Tuple)
    requires { (rows : List Tuple) × (gone : List Bool)
        × (length gone ≡ length (rows ++ tuple.now ∷ []))
        × All (IsLinked (rows ++ tuple.now ∷ []) gone) indexes.old }
    ensures { EachTurned (Drops tuple.now) indexes.old indexes.new }
{
    for place in 0..indexes.len() {
        let index = &mut indexes[place];
        index.take_last(tuple);
    }
}

/// Links the tuple of a number, which is gone and is to come back, in each.
fn link_all(indexes: &mut [KeyIndex], rows: &Rows, number: usize)
    requires within { number < length rows.now.rows }
    requires linked { All (IsLinked rows.now.rows rows.now.gone) indexes.old }
    ensures { EachTurned (Links rows.now.rows rows.now.gone number) indexes.old indexes.new }
{
    for place in 0..indexes.len() {
        let index = &mut indexes[place];
        index.link(rows, number);
    }
}

/// Makes room to keep one set more in each.
fn reserve_keep_all(indexes: &mut [KeyIndex]) -> Result<(), AllocError>
    ensures turned { EachTurned Stays indexes.old indexes.new }
    ensures room { OnOk result (All CanKeep indexes.new) }
{
    for place in 0..indexes.len() {
        let index = &mut indexes[place];
        index.reserve_keep()?;
    }
    Ok(())
}

/// Keeps how many clashes there are in each.
fn keep_all(indexes: &mut [KeyIndex])
    requires { All CanKeep indexes.old }
    ensures { EachTurned Keeps indexes.old indexes.new }
{
    for place in 0..indexes.len() {
        let index = &mut indexes[place];
        index.keep();
    }
}

/// Lets each go back to the clashes that it kept last.
fn go_back_all(indexes: &mut [KeyIndex])
    requires { All (λ index. 0 < length index.clashes.before.items) indexes.old }
    ensures { EachTurned GoesBack indexes.old indexes.new }
{
    for place in 0..indexes.len() {
        let index = &mut indexes[place];
        index.go_back();
    }
}

/// Lets each forget what it kept.
fn forget_all(indexes: &mut [KeyIndex])
    ensures { EachTurned Forgets indexes.old indexes.new }
{
    for place in 0..indexes.len() {
        let index = &mut indexes[place];
        index.forget();
    }
}

// ---- the same over the list that owns them

/// Makes room for one tuple more in each.
pub(crate) fn reserve_every(indexes: &mut Vec<KeyIndex>) -> Result<(), AllocError>
    ensures turned { EachTurned Stays indexes.old.items indexes.new.items }
    ensures room { OnOk result (All HasRoom indexes.new.items) }
{
    reserve_all(indexes)
}

/// Puts a tuple behind the others in each.
pub(crate) fn put_in_every(indexes: &mut Vec<KeyIndex>, rows: &Rows, tuple: &Tuple)
    requires index { All (IsIndex rows.now.rows rows.now.gone) indexes.old.items }
    requires room { All HasRoom indexes.old.items }
    ensures { EachTurned (Becomes (rows.now.rows ++ tuple.now ∷ []) (rows.now.gone ++ false ∷ []))
        indexes.old.items indexes.new.items }
{
    put_in_all(indexes, rows, tuple);
}

/// Leaves out the tuple of a number, which has just been marked, in each.
pub(crate) fn take_out_every(indexes: &mut Vec<KeyIndex>, rows: &Rows, number: usize)
    requires within { number < length rows.now.rows }
    requires marked { slice_index_or rows.now.gone number false ≡ true }
    requires index { All (IsIndex rows.now.rows (slice_set rows.now.gone number false))
        indexes.old.items }
    ensures { EachTurned (Becomes rows.now.rows rows.now.gone) indexes.old.items indexes.new.items }
{
    take_out_all(indexes, rows, number);
}

/// Takes the last tuple out of each.
pub(crate) fn take_last_every(indexes: &mut Vec<KeyIndex>, tuple: &Tuple)
    requires { (rows : List Tuple) × (gone : List Bool)
        × (length gone ≡ length (rows ++ tuple.now ∷ []))
        × All (IsLinked (rows ++ tuple.now ∷ []) gone) indexes.old.items }
    ensures { EachTurned (Drops tuple.now) indexes.old.items indexes.new.items }
{
    take_last_all(indexes, tuple);
}

/// Links the tuple of a number, which is gone and is to come back, in each.
pub(crate) fn link_every(indexes: &mut Vec<KeyIndex>, rows: &Rows, number: usize)
    requires within { number < length rows.now.rows }
    requires linked { All (IsLinked rows.now.rows rows.now.gone) indexes.old.items }
    ensures { EachTurned (Links rows.now.rows rows.now.gone number) indexes.old.items
        indexes.new.items }
{
    link_all(indexes, rows, number);
}

/// Makes room to keep one set more in each.
pub(crate) fn reserve_keep_every(indexes: &mut Vec<KeyIndex>) -> Result<(), AllocError>
    ensures turned { EachTurned Stays indexes.old.items indexes.new.items }
    ensures room { OnOk result (All CanKeep indexes.new.items) }
{
    reserve_keep_all(indexes)
}

/// Keeps how many clashes there are in each.
pub(crate) fn keep_every(indexes: &mut Vec<KeyIndex>)
    requires { All CanKeep indexes.old.items }
    ensures { EachTurned Keeps indexes.old.items indexes.new.items }
{
    keep_all(indexes);
}

/// Lets each go back to the clashes that it kept last.
pub(crate) fn go_back_every(indexes: &mut Vec<KeyIndex>)
    requires { All (λ index. 0 < length index.clashes.before.items) indexes.old.items }
    ensures { EachTurned GoesBack indexes.old.items indexes.new.items }
{
    go_back_all(indexes);
}

/// Lets each forget what it kept.
pub(crate) fn forget_every(indexes: &mut Vec<KeyIndex>)
    ensures { EachTurned Forgets indexes.old.items indexes.new.items }
{
    forget_all(indexes);
}
