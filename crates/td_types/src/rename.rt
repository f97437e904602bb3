//! Renaming: each renaming is a pair of an old and a new name, and all are done at once.
ghost use Rattle.std.specs.Prelude.{◌≡◌, IfOk};
ghost use Rattle.td_tree.specs.model.Outcomes.{Answers};
ghost use Rattle.td_types.specs.model.Headings.{IsMap, can_rename, new_name, new_names};
ghost use Rattle.td_types.specs.model.Headings.{renamed_attributes};
ghost use Rattle.td_types.specs.model.Headings.{renamed_heading};
ghost use Rattle.td_types.specs.model.Types.{type_at};

use crate::heading::Heading;
use crate::names::{are_distinct, names_of};
use std::alloc::AllocError;
use td_tree::cause::Cause;
use td_tree::fault::Fault;
use td_tree::name::Name;

/// The name that the renamings give a name.
fn new_name<'a>(name: &'a Name, renamings: &'a [(Name, Name)]) -> &'a Name
    ensures { result.now ≡ new_name renamings.now name.now }
{
    for (old, new) in renamings {
        if old == name {
            return new;
        }
    }
    name
}

impl Heading {
    /// The names that the renamings give the attributes, in the order of the old ones.
    pub fn new_names(&self, renamings: &[(Name, Name)]) -> Result<Vec<Name>, AllocError>
        ensures { IfOk result (λ names. names.items ≡ new_names renamings.now self.now) }
    {
        let mut names = Vec::new(*self.attributes.allocator());
        for attribute in &self.attributes {
            names.push(new_name(&attribute.name, renamings).try_clone()?)?;
        }
        Ok(names)
    }

    /// Whether each old name is there, none comes twice, and the new names are distinct.
    pub fn can_rename(&self, renamings: &[(Name, Name)]) -> Result<bool, AllocError>
        ensures { IfOk result (λ can. can ≡ can_rename renamings.now self.now) }
    {
        let old_names = names_of(*self.attributes.allocator(), renamings)?;
        let new_names = self.new_names(renamings)?;
        Ok(self.has_all(&old_names) && are_distinct(&old_names) && are_distinct(&new_names))
    }

    /// Each attribute under its new name: refused where an old name is not there or comes twice,
    /// or where two attributes would have one name.
    pub fn rename(&self, renamings: &[(Name, Name)]) -> Result<Heading, Fault>
        ensures answer { Answers (λ h. h) result (renamed_heading renamings.now self.now) }
        ensures types { IfOk result (λ h.
            IsMap h (λ n. type_at n (renamed_attributes renamings.now self.now))) }
    {
        if !self.can_rename(renamings)? {
            return Err(Fault::Refused(Cause::Heading));
        }
        let mut heading = Heading::empty(*self.attributes.allocator());
        for attribute in &self.attributes {
            let name = new_name(&attribute.name, renamings).try_clone()?;
            heading = heading.add(name, attribute.ty.try_clone()?)?;
        }
        Ok(heading)
    }
}
