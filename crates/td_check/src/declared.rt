//! What a database declares beside types.
ghost use Rattle.std.specs.Map.{lookup};
ghost use Rattle.std.specs.Prelude.{◌≡◌, [], option_map, take};
ghost use Rattle.td_check.specs.code.LentScopes.{declared_relvars};
ghost use Rattle.td_check.specs.code.ScopeCode.{seen_view};
ghost use Rattle.td_check.specs.model.Scopes.{kind_and_heading, relvar_in};
ghost use Rattle.td_types.specs.model.Types.{same_name};

use crate::scope::Kind;
use indexmap::{IndexMap, IndexSet};
use std::alloc::Global;
use td_tree::name::Name;
use td_types::heading::Heading;

/// What a database declares beside types: the headings of its relvars and the names of its
/// constraints, each in order of definition.
#[derive(Drop)]
pub struct Declared {
    pub bases: IndexMap<Name, Heading>,
    pub virtuals: IndexMap<Name, Heading>,
    pub constraints: IndexSet<Name>,
}

impl Declared {
    /// Nothing. It takes no memory.
    pub fn new(alloc: Global) -> Declared
        ensures bases { result.bases.entries ≡ [] }
        ensures virtuals { result.virtuals.entries ≡ [] }
        ensures constraints { result.constraints.keys ≡ [] }
    {
        Declared {
            bases: IndexMap::new(alloc),
            virtuals: IndexMap::new(alloc),
            constraints: IndexSet::new(alloc),
        }
    }

    /// The heading of the virtual relvar of the name, if it is one of the first so many.
    fn virtual_heading(&self, name: &Name, virtuals: usize) -> Option<&Heading>
        ensures { option_map (λ h. h.now) result
            ≡ lookup (same_name name.now) (take virtuals self.now.virtuals.entries) }
    {
        let (place, _, heading) = self.virtuals.get_full(name)?;
        if place < virtuals {
            Some(heading)
        } else {
            None
        }
    }

    /// What is known of the relvar of the name where so many of the virtual relvars are known.
    pub(crate) fn relvar(&self, name: &Name, virtuals: usize) -> Option<(Kind, &Heading)>
        ensures { option_map seen_view result ≡ option_map kind_and_heading
            (relvar_in name.now (declared_relvars self.now virtuals)) }
    {
        match self.bases.get(name) {
            Some(heading) => Some((Kind::Base, heading)),
            None => {
                let heading = self.virtual_heading(name, virtuals)?;
                Some((Kind::Virtual, heading))
            }
        }
    }
}
