//! Types as they are written.
use crate::name::Name;

/// A type as it is written.
#[cycle(type_tree)]
#[derive(Drop)]
pub enum TypeTree {
    Integer,
    Char,
    Boolean,
    /// A user type, by its name.
    User(Name),
    /// The tuples of a heading.
    Tuple(Vec<AttributeTree>),
    /// The relations of a heading.
    Relation(Vec<AttributeTree>),
}

/// A name with its type, as they stand in a heading or among components.
#[cycle(type_tree)]
#[derive(Drop)]
pub struct AttributeTree {
    pub name: Name,
    pub ty: TypeTree,
}
