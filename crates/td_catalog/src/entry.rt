//! Entries of the catalogue.
use crate::defining::DefiningExpression;
use td_body::body::Body;
use td_tree::name::Name;
use td_types::heading::Heading;

/// What a catalogue keeps of a base relvar beside its name.
#[derive(Drop)]
pub struct BaseEntry<B: Body> {
    pub heading: Heading,
    /// The names of each candidate key, in the order in which they are declared.
    pub keys: Vec<Vec<Name>>,
    pub body: B,
}

/// What a catalogue keeps of a virtual relvar beside its name.
#[derive(Drop)]
pub struct VirtualEntry {
    /// The heading of the expression's value.
    pub heading: Heading,
    pub tree: DefiningExpression,
    /// The names of each candidate key, in the order in which they are declared.
    pub keys: Vec<Vec<Name>>,
}

/// What a catalogue keeps of a constraint beside its name.
#[derive(Drop)]
pub(crate) struct ConstraintEntry {
    pub(crate) tree: DefiningExpression,
}
