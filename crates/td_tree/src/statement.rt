//! Statements as they are written.
use crate::expression::{Expr, NamedExpr};
use crate::name::Name;
use crate::operator::Style;
use crate::type_tree::AttributeTree;

/// A statement.
#[derive(Drop)]
pub enum Statement {
    Empty,
    DefineType(TypeDefinition),
    DropType(Name),
    DefineBase(BaseDefinition),
    DefineVirtual(VirtualDefinition),
    DropVar(Name),
    DefineConstraint(Name, Expr),
    DropConstraint(Name),
    /// One or more assignments, all at once.
    Assign(Vec<Assignment>),
    BeginTransaction,
    Commit,
    Rollback,
    Write(Expr),
    Dump,
}

/// `TYPE T POSSREP {C1 T1, .. CONSTRAINT b}`
#[derive(Drop)]
pub struct TypeDefinition {
    pub name: Name,
    pub components: Vec<AttributeTree>,
    pub constraint: Option<Expr>,
}

/// `VAR R BASE RELATION {..} INIT (e) KEY {..} ..`
#[derive(Drop)]
pub struct BaseDefinition {
    pub name: Name,
    pub heading: Vec<AttributeTree>,
    pub init: Option<Expr>,
    pub keys: Vec<Vec<Name>>,
}

/// `VAR V VIRTUAL (e) KEY {..} ..`
#[derive(Drop)]
pub struct VirtualDefinition {
    pub name: Name,
    pub expression: Expr,
    pub keys: Vec<Vec<Name>>,
}

/// One assignment of a statement.
#[derive(Drop)]
pub enum Assignment {
    Assign(Name, Expr),
    Insert(Name, Expr),
    /// An insertion that is refused where a tuple is there.
    DisjointInsert(Name, Expr),
    Delete(Name, Option<Expr>),
    /// A deletion of tuples that is refused where one of them is not there.
    IncludedDelete(Name, Expr),
    Update(Style, Name, Option<Expr>, Vec<NamedExpr>),
}
