//! Names with marks by which lists that have none in common are mostly told apart at once.
ghost use Rattle.std.specs.Prelude.{◌≡◌, ◌∷◌, ◌++◌, [], OnErr, OnOk, bit_and};
ghost use Rattle.std.specs.List.{list_any};
ghost use Rattle.td_catalog.specs.code.NameMarks.{name_mark, name_marks};
ghost use Rattle.td_types.specs.model.Headings.{has_name};

use std::alloc::AllocError;
use std::hash::{FoldHasher, Hash, Hasher};
use std::marker::Model;
use td_tree::name::Name;
use td_types::names::is_among;

/// The mark of a name: one bit of 64, which its hash gives.
fn name_mark(name: &Name) -> u64
    ensures { result ≡ name_mark name.now }
{
    let mut state = FoldHasher::default();
    name.hash(&mut state);
    1 << (state.finish() % 64)
}

/// The marks of names together.
fn name_marks(names: &[Name]) -> u64
    ensures { result ≡ name_marks 0 names.now }
{
    let mut marks = 0;
    for name in names {
        marks |= name_mark(name);
    }
    marks
}

/// Whether one of the names is among the others.
fn have_common(names: &[Name], others: &[Name]) -> bool
    ensures { result ≡ list_any (λ n. has_name n others.now) names.now }
{
    for name in names {
        if is_among(name, others) {
            return true;
        }
    }
    false
}

/// A list of names, with the marks of them all. Names that are the same have the same mark, so that
/// lists whose marks have no bit in common have no name in common.
#[derive(Drop)]
pub struct MarkedNames {
    names: Vec<Name>,
    marks: u64,
}

impl Model for MarkedNames {
    ghost use Rattle.std.specs.Prelude.{ℕ, List, ◌≡◌};
    ghost use Rattle.std.specs.Coded.{coded_list, coded_ℕ};
    ghost use Rattle.td_catalog.specs.code.NameMarks.{name_marks};

    ghost Value = { List (List ℕ) };

    ghost coded = { coded_list (coded_list coded_ℕ) };

    ghost view = { λ m. m.names.items };

    ghost invariant = { λ m. m.marks ≡ name_marks 0 m.names.items };
}

impl MarkedNames {
    /// The names with their marks. It takes no memory.
    pub fn new(names: Vec<Name>) -> MarkedNames
        ensures { result ≡ names.items }
    {
        let marks = name_marks(&names);
        MarkedNames { names, marks }
    }

    /// Adds a name, last.
    pub fn push(&mut self, name: Name) -> Result<(), AllocError>
        ensures added { OnOk result (self.new ≡ self.old ++ name ∷ []) }
        ensures unchanged { OnErr result (self.new ≡ self.old) }
    {
        let mark = name_mark(&name);
        self.names.push(name)?;
        self.marks |= mark;
        Ok(())
    }

    /// Whether the name is one of them.
    pub fn includes(&self, name: &Name) -> bool
        ensures { result ≡ has_name name.now self.now }
    {
        is_among(name, &self.names)
    }

    /// Whether one of them is among the others. Where their marks have none in common, that takes
    /// no time by the names.
    pub fn have_common(&self, others: &MarkedNames) -> bool
        ensures { result ≡ list_any (λ n. has_name n others.now) self.now }
    {
        self.marks & others.marks != 0 && have_common(&self.names, &others.names)
    }
}
