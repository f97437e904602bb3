//! What an expression mentions.
ghost use Rattle.std.specs.Prelude.{◌≡◌, IfOk};
ghost use Rattle.std.specs.Cmp.Lexicographic.{slice_cmp};
ghost use Rattle.std.specs.List.Sorted.{IsStrictlySortedBy};
ghost use Rattle.std.specs.Ordering.{nat_cmp};
ghost use Rattle.td_check.specs.code.CheckViews.{names_view};
ghost use Rattle.td_check.specs.model.Mentions.{mentions_of, name_set};
ghost use Rattle.td_tree.specs.model.Outcomes.{Answers};
ghost use Rattle.td_tree.specs.code.TreeViews.{tree_view};

use crate::expression::names_seen;
use crate::mentioned::Mentions;
use crate::scope::Scope;
use std::alloc::AllocError;
use std::collections::BTreeSet;
use td_tree::expression::Expr;
use td_tree::fault::Fault;
use td_tree::name::Name;

/// The names, each once, ascending.
fn set_of_names(names: Vec<Name>) -> Result<BTreeSet<Name>, AllocError>
    ensures names { IfOk result (λ set. set.keys ≡ name_set names.items) }
    ensures ascending { IfOk result (λ set. IsStrictlySortedBy (slice_cmp nat_cmp) set.keys) }
{
    let mut set = BTreeSet::new(*names.allocator());
    for name in names {
        set.insert(name)?;
    }
    let _ = set.len();
    Ok(set)
}

/// The names as a list, each once, ascending.
pub(crate) fn name_set(names: Vec<Name>) -> Result<Vec<Name>, AllocError>
    ensures names { IfOk result (λ set. set.items ≡ name_set names.items) }
    ensures ascending { IfOk result (λ set. IsStrictlySortedBy (slice_cmp nat_cmp) set.items) }
{
    let alloc = *names.allocator();
    let mut set = Vec::new(alloc);
    for name in set_of_names(names)? {
        set.push(name)?;
    }
    Ok(set)
}

/// What the expression mentions: the relvars that its names are, and the types that it selects
/// values of or names. It is refused as `check_expr` refuses it.
pub fn mentions(scope: &Scope<'_>, expr: &Expr) -> Result<Mentions, Fault>
    ensures answer { Answers names_view result (mentions_of scope.now (tree_view expr.now)) }
    ensures relvars { IfOk result (λ m.
        IsStrictlySortedBy (slice_cmp nat_cmp) m.relvars.items) }
    ensures types { IfOk result (λ m. IsStrictlySortedBy (slice_cmp nat_cmp) m.types.items) }
{
    let Mentions { relvars, types } = names_seen(scope, expr)?;
    let relvars = name_set(relvars)?;
    let types = name_set(types)?;
    Ok(Mentions { relvars, types })
}
