//! What changes of databases are to their callers: each function has its contract alone.
ghost use Rattle.td_catalog.specs.laws.TypedDatabaseLaws.{BaseRelvarsKeepTyped, BodiesKeepTyped};
ghost use Rattle.td_catalog.specs.laws.TypedDatabaseLaws.{ConstraintsKeepTyped, DropsKeepTyped};
ghost use Rattle.td_catalog.specs.laws.TypedDatabaseLaws.{EmptyDatabaseIsTyped, TypesKeepTyped};
ghost use Rattle.td_catalog.specs.laws.TypedDatabaseLaws.{VirtualRelvarsKeepTyped};

/// A database in which nothing is defined is typed.
pub fn empty_database_is_typed()
    ensures { EmptyDatabaseIsTyped }
{}

/// A typed database stays so with one more type, that may stand after the others.
pub fn types_keep_typed()
    ensures { TypesKeepTyped }
{}

/// A typed database stays so with one more base relvar, of a name that is new.
pub fn base_relvars_keep_typed()
    ensures { BaseRelvarsKeepTyped }
{}

/// A typed database stays so with one more virtual relvar, of a name that is new.
pub fn virtual_relvars_keep_typed()
    ensures { VirtualRelvarsKeepTyped }
{}

/// A typed database stays so with one more constraint, of a name that is new.
pub fn constraints_keep_typed()
    ensures { ConstraintsKeepTyped }
{}

/// A typed database stays so where a base relvar holds another relation that it may hold.
pub fn bodies_keep_typed()
    ensures { BodiesKeepTyped }
{}

/// A typed database stays so without an entry that none mentions.
pub fn drops_keep_typed()
    ensures { DropsKeepTyped }
{}
