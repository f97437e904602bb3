//! What an expression is evaluated in.
use td_body::body::Body;
use td_catalog::catalog::Catalog;
use td_tree::name::Name;
use td_value::relation::Rel;
use td_value::tuple::Tuple;

/// A catalogue, another relation in place of what one base relvar holds, and the tuples in scope.
#[derive(Drop)]
pub struct Env<'a, B: Body> {
    pub catalog: &'a Catalog<B>,
    /// The relvar's name with the other relation, which is of its heading.
    pub other: Option<(&'a Name, &'a Rel)>,
    /// The innermost is the last.
    pub tuples: &'a [&'a Tuple],
}
