//! Tuples that hold no more memory than they need.
ghost use Rattle.std.specs.Prelude.{◌≡◌, ◌++◌, IfOk, OnOk};
ghost use Rattle.std.specs.List.{All};
ghost use Rattle.td_value.specs.model.Values.{HaveSameNames, tuple_names};
ghost use Rattle.td_value.specs.code.Blocks.{making};

use crate::names::NameList;
use crate::relation::Rel;
use crate::tuple::Tuple;
use crate::tuples::{Tuples, level_of_row, put_copies};
use std::alloc::{AllocError, Global};
use std::rc::Rc;

impl Tuple {
    /// The list of its names, which it shares.
    fn shared_names(&self) -> Result<NameList, AllocError>
        ensures { IfOk result (λ names. names ≡ tuple_names self.now) }
    {
        let names = self.block.names.clone()?;
        Ok(NameList { names })
    }

    /// Whether its block has more than twice as many rows as those.
    fn is_of_more_than_twice(&self, rows: usize) -> bool {
        self.block.cells.len() / 2 > rows.saturating_mul(self.block.width)
    }

    /// Whether its block has no other row.
    fn is_alone(&self) -> bool {
        self.block.cells.len() == self.block.width
    }

    /// Whether it was made apart from the other: they share no block, and no list of names or, if
    /// it is soon found that they could share a block, no matter which.
    fn is_apart_from(&self, other: &Tuple) -> bool {
        self.is_alone()
            && other.is_alone()
            && (level_of_row(self.values()) > 0
                || !Rc::ptr_eq(&self.block.names, &other.block.names))
    }
}

/// Whether one of the tuples lies in a block of more than twice as many rows as there are tuples.
fn hold_too_much(rows: &[Tuple]) -> bool {
    rows.iter().any(|row| row.is_of_more_than_twice(rows.len()))
}

/// Puts copies of the tuples' values into the maker of tuples.
fn put_rows(alloc: Global, rows: &[Tuple], made: &mut Tuples) -> Result<(), AllocError>
    requires { All (λ t. tuple_names t ≡ made.old.names) rows.now }
    ensures { OnOk result (made.new ≡ making made.old.names (made.old.tuples ++ rows.now)) }
{
    let mut values = Vec::new(alloc);
    for row in rows {
        put_copies(row.values(), &mut values)?;
        made.push(&mut values)?;
    }
    Ok(())
}

/// The tuples again, in one block of their own, in their order.
fn moved_together(alloc: Global, rows: &[Tuple]) -> Result<Vec<Tuple>, AllocError>
    requires { HaveSameNames rows.now }
    ensures { IfOk result (λ moved. moved.items ≡ rows.now) }
{
    let Some(first) = rows.first() else {
        return Ok(Vec::new(alloc));
    };
    let names = first.shared_names()?;
    let mut moved = Tuples::new(alloc, &names, rows.len())?;
    put_rows(alloc, rows, &mut moved)?;
    moved.finish(alloc)
}

/// Whether the first two of the tuples were made apart.
fn are_scattered(rows: &[Tuple]) -> bool {
    match (rows.get(0), rows.get(1)) {
        (Some(first), Some(second)) => first.is_apart_from(second),
        _ => false,
    }
}

/// The tuples again: in one block, where the first two of them were made apart.
pub(crate) fn gathered(rows: Vec<Tuple>) -> Result<Vec<Tuple>, AllocError>
    requires { HaveSameNames rows.items }
    ensures { IfOk result (λ gathered. gathered.items ≡ rows.items) }
{
    if are_scattered(&rows) {
        moved_together(*rows.allocator(), &rows)
    } else {
        Ok(rows)
    }
}

impl Rel {
    /// The relation again, its tuples in one block of their own, in their order.
    pub fn moved_together(self) -> Result<Rel, AllocError>
        ensures { IfOk result (λ r. r ≡ self) }
    {
        let alloc = *self.rows.allocator();
        let rows = moved_together(alloc, self.rows())?;
        let heading = self.heading.clone()?;
        let rows = Rc::new(alloc, rows)?;
        Ok(Rel { heading, rows })
    }

    /// The relation again, where no tuple lies in a block of more than twice as many rows as it has
    /// tuples.
    pub fn kept_small(self) -> Result<Rel, AllocError>
        ensures { IfOk result (λ r. r ≡ self) }
    {
        if hold_too_much(self.rows()) {
            self.moved_together()
        } else {
            Ok(self)
        }
    }
}

impl Tuple {
    /// A copy of the tuple: in a block of its own, where its block has more than two rows.
    pub fn kept_small(&self) -> Result<Tuple, AllocError>
        ensures { IfOk result (λ t. t ≡ self.now) }
    {
        if !self.is_of_more_than_twice(1) {
            return self.try_clone();
        }
        let names = self.shared_names()?;
        let mut values = Vec::with_capacity(*self.block.cells.allocator(), self.len())?;
        put_copies(self.values(), &mut values)?;
        Tuple::of(*self.block.cells.allocator(), &names, values)
    }
}
