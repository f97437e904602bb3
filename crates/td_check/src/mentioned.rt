//! Names that are mentioned, and those of user types in a type.
ghost use Rattle.std.specs.Prelude.{◌≡◌, ◌++◌, [], OnOk};
ghost use Rattle.td_check.specs.code.CheckViews.{names_view};
ghost use Rattle.td_check.specs.model.Mentions.{types_named, types_named_in};
ghost use Rattle.td_tree.specs.code.TreeViews.{heading_tree_view, type_tree_view};

use std::alloc::{AllocError, Global};
use td_tree::name::Name;
use td_tree::type_tree::{AttributeTree, TypeTree};

/// Names of relvars and of types. `mentions` gives each once, ascending.
#[derive(Drop)]
pub struct Mentions {
    pub relvars: Vec<Name>,
    pub types: Vec<Name>,
}

impl Mentions {
    /// No name.
    pub(crate) fn new(alloc: Global) -> Mentions
        ensures { names_view result ≡ ([], []) }
    {
        Mentions {
            relvars: Vec::new(alloc),
            types: Vec::new(alloc),
        }
    }
}

/// Adds the user types named in a type.
#[cycle(named)]
fn add_types(tree: &TypeTree, types: &mut Vec<Name>) -> Result<(), AllocError>
    ensures { OnOk result (types.new.items ≡ types.old.items ++ types_named (type_tree_view
        tree.now)) }
{
    match tree {
        TypeTree::Integer | TypeTree::Char | TypeTree::Boolean => Ok(()),
        TypeTree::User(name) => Ok(types.push(name.try_clone()?)?),
        TypeTree::Tuple(heading) | TypeTree::Relation(heading) => add_types_in(heading, types),
    }
}

/// Adds those named in a heading.
#[cycle(named)]
pub(crate) fn add_types_in(
    heading: &[AttributeTree],
    types: &mut Vec<Name>,
) -> Result<(), AllocError>
    ensures { OnOk result
        (types.new.items ≡ types.old.items ++ types_named_in (heading_tree_view heading.now)) }
{
    for attribute in heading {
        add_types(&attribute.ty, types)?;
    }
    Ok(())
}
