//! Lists of names that the tuples of a relation share.
ghost use Rattle.std.specs.Prelude.{◌≡◌, IfOk};
ghost use Rattle.std.specs.Ordering.{nat_cmp};
ghost use Rattle.std.specs.Cmp.Lexicographic.{slice_cmp};
ghost use Rattle.std.specs.List.{All};
ghost use Rattle.std.specs.List.Sorted.{IsStrictlySortedBy};
ghost use Rattle.td_tree.specs.model.Names.{IsName};

use std::alloc::{AllocError, Global};
use std::marker::Model;
use std::rc::Rc;
use td_tree::name::Name;

/// The names of tuples, ascending. Copies share them, and so do the tuples that are made of them.
#[derive(Drop)]
pub struct NameList {
    pub(crate) names: Rc<Vec<Name>>,
}

impl Model for NameList {
    ghost use Rattle.std.specs.Prelude.{List, ℕ};
    ghost use Rattle.std.specs.Ordering.{nat_cmp};
    ghost use Rattle.std.specs.Cmp.Lexicographic.{slice_cmp};
    ghost use Rattle.std.specs.List.Sorted.{IsStrictlySortedBy};
    ghost use Rattle.td_value.specs.code.Zipped.{AreNames};

    ghost Value = { List (List ℕ) };

    ghost view = { λ a. a.names.value.items };

    ghost invariant = { λ a. AreNames a.names.value.items };
}

/// Each of the names is one.
fn know_names(names: &[Name])
    ensures { All IsName names.now }
{
    for name in names {
        name.reveal();
    }
}

impl NameList {
    /// The list of names that ascend.
    pub fn new(alloc: Global, names: Vec<Name>) -> Result<NameList, AllocError>
        requires { IsStrictlySortedBy (slice_cmp nat_cmp) names.items }
        ensures { IfOk result (λ list. list ≡ names.items) }
    {
        know_names(&names);
        let names = Rc::new(alloc, names)?;
        Ok(NameList { names })
    }

    /// What holds of every list of names: they ascend. It takes no time.
    pub fn reveal(&self)
        ensures { IsStrictlySortedBy (slice_cmp nat_cmp) self.now }
    {
        let _ = self.names.len();
    }

    /// The names, ascending.
    pub fn as_slice(&self) -> &[Name]
        ensures names { result.now ≡ self.now }
        ensures ascending { IsStrictlySortedBy (slice_cmp nat_cmp) self.now }
    {
        self.names.as_slice()
    }
}
