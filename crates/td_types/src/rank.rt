//! The rank of a type.
ghost use Rattle.std.specs.Prelude.{◌≡◌, ◌+◌, List, ℕ};
ghost use Rattle.td_tree.specs.model.Outcomes.{Answers, Outcome, Valued, with_value};
ghost use Rattle.td_types.specs.code.Tables.{kept_rank};
ghost use Rattle.td_types.specs.model.TypeLists.{DeclaredType, greatest_rank, limited_rank};
ghost use Rattle.td_types.specs.model.TypeLists.{rank_limit, rank_of, user_ranks};
ghost use Rattle.td_types.specs.model.Types.{Type', pack, tuple};
ghost use Rattle.td_types.specs.code.Views.{pairs_view, type_view};

use crate::heading::Heading;
use crate::table::TypeTable;
use crate::ty::Ty;
use td_tree::cause::Cause;
use td_tree::fault::Fault;
use td_tree::name::Name;

/// The greatest rank of a declared type and of a relvar's type.
pub const RANK_LIMIT: u32 = 32;

/// The rank above the greatest of some.
fn rank_above(greatest: Option<u32>) -> Option<u32>
    ensures { (o : Outcome ℕ) → greatest ≡ kept_rank o
        → result ≡ kept_rank (with_value o (λ g. Valued (g + 1))) }
{
    Some(greatest?.min(RANK_LIMIT) + 1)
}

/// The type's rank, as far as it is within the limit.
#[cycle(rank)]
pub(crate) fn type_rank(table: &TypeTable, ty: &Ty) -> Option<u32>
    ensures { result ≡ kept_rank (rank_of table.now (type_view ty.now)) }
{
    match ty {
        Ty::Bool | Ty::Int | Ty::Text => Some(1),
        Ty::User(name) => table.user_rank(name),
        Ty::Tup(heading) | Ty::Rel(heading) => rank_above(heading_rank(table, heading)),
    }
}

/// The greatest rank in a heading.
#[cycle(rank)]
fn heading_rank(table: &TypeTable, heading: &Heading) -> Option<u32>
    ensures { result ≡ kept_rank (greatest_rank (user_ranks table.now) (pack heading.now)) }
{
    let mut greatest = 0;
    for attribute in &heading.attributes {
        greatest = greatest.max(type_rank(table, &attribute.ty)?);
    }
    Some(greatest)
}

/// The rank of a type of these components.
pub(crate) fn components_rank(table: &TypeTable, components: &[(Name, Ty)]) -> Option<u32>
    ensures { result ≡ kept_rank (rank_of table.now (tuple (pack (pairs_view components.now)))) }
{
    let mut greatest = 0;
    for (_, ty) in components {
        greatest = greatest.max(type_rank(table, ty)?);
    }
    rank_above(Some(greatest))
}

/// A type's rank by what is kept of it: refused where a user type in it is not declared, or where
/// the rank is above the limit.
fn limited_rank(kept: Option<u32>) -> Result<u32, Fault>
    ensures { (ds : List DeclaredType) (t : Type') → kept ≡ kept_rank (rank_of ds t)
        → Answers (λ r. r) result (limited_rank ds t) }
{
    match kept {
        None => Err(Fault::Refused(Cause::NameUnknown)),
        Some(rank) if rank <= RANK_LIMIT => Ok(rank),
        Some(_) => Err(Fault::Refused(Cause::Rank)),
    }
}

/// The type's rank: refused where a user type in it is not declared, or where the rank is above
/// the limit.
pub fn rank(table: &TypeTable, ty: &Ty) -> Result<u32, Fault>
    ensures { Answers (λ r. r) result (limited_rank table.now (type_view ty.now)) }
{
    limited_rank(type_rank(table, ty))
}

/// The rank of a type of these components: refused as `rank` refuses.
pub fn rank_of_components(table: &TypeTable, components: &[(Name, Ty)]) -> Result<u32, Fault>
    ensures { Answers (λ r. r) result
        (limited_rank table.now (tuple (pack (pairs_view components.now)))) }
{
    limited_rank(components_rank(table, components))
}
