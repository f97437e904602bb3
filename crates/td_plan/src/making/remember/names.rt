//! The slots that steps name, in lists without repetition.
ghost use Rattle.std.specs.Prelude.{◌≡◌, ◌<◌, ◌^◌, ◌-◌, ◌∷◌, [], IfOk, OnOk, map};
ghost use Rattle.td_plan.specs.code.Remembered.{AreAllAmong, AreAmong, AreAmongBefore, AreAmongBut};
ghost use Rattle.td_plan.specs.code.Remembered.{AreBefore};

use std::alloc::{AllocError, Global};

/// One slot.
pub(super) fn one(alloc: Global, slot: usize) -> Result<Vec<usize>, AllocError>
    ensures { IfOk result (λ names. names.items ≡ slot ∷ []) }
{
    let mut names = Vec::new(alloc);
    names.push(slot)?;
    Ok(names)
}

/// Adds those of the others that are not there.
pub(super) fn add_all(names: &mut Vec<usize>, others: &[usize]) -> Result<(), AllocError>
    ensures before { OnOk result (AreAmong names.old.items names.new.items) }
    ensures others { OnOk result (AreAmong others.now names.new.items) }
{
    for other in others {
        if !names.contains(other) {
            names.push(*other)?;
        }
    }
    Ok(())
}

/// Those of both.
pub(super) fn joined(first: Vec<usize>, second: &[usize]) -> Result<Vec<usize>, AllocError>
    ensures first { IfOk result (λ names. AreAmong first.items names.items) }
    ensures second { IfOk result (λ names. AreAmong second.now names.items) }
{
    let mut names = first;
    add_all(&mut names, second)?;
    Ok(names)
}

/// Those of all.
pub(super) fn union_of(alloc: Global, all: &[Vec<usize>]) -> Result<Vec<usize>, AllocError>
    ensures { IfOk result (λ names. AreAllAmong (map (λ ns. ns.items) all.now) names.items) }
{
    let mut names = Vec::new(alloc);
    for some in all {
        add_all(&mut names, some)?;
    }
    Ok(names)
}

/// All but that slot.
pub(super) fn without(alloc: Global, slot: usize, names: &[usize]) -> Result<Vec<usize>, AllocError>
    ensures { IfOk result (λ others. AreAmongBut slot names.now others.items) }
{
    let mut others = Vec::new(alloc);
    for name in names {
        if *name != slot {
            others.push(*name)?;
        }
    }
    Ok(others)
}

/// Those before the slot.
pub(super) fn before(alloc: Global, slot: usize, names: &[usize]) -> Result<Vec<usize>, AllocError>
    ensures { IfOk result (λ others. AreAmongBefore slot names.now others.items) }
{
    let mut others = Vec::new(alloc);
    for name in names {
        if *name < slot {
            others.push(*name)?;
        }
    }
    Ok(others)
}

/// The first slot from which on there is none of these, if it is a number of a slot.
pub(super) fn reach_of(names: &[usize]) -> usize
    ensures { result < 2 ^ 64 - 1 → AreBefore result names.now }
{
    let mut reach = 0;
    for name in names {
        if reach <= *name {
            reach = name.saturating_add(1);
        }
    }
    reach
}
