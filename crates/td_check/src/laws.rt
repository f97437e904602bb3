//! What the types of expressions are to their callers: each function has its contract alone.
ghost use Rattle.td_check.specs.laws.StaticCauses.{CausesAreStatic};
ghost use Rattle.td_check.specs.laws.StaticLaws.{DropsChangeNothing, MentionsAreKnown};
ghost use Rattle.td_check.specs.laws.StaticLaws.{MoreChangesNothing, NamesAreASet, RelvarsAreNamed};
ghost use Rattle.td_check.specs.laws.StaticLaws.{ScopesAreKept};
ghost use Rattle.td_check.specs.laws.StaticLaws.{TypesAreKnown, TypesAreMadeOfMentions};
ghost use Rattle.td_check.specs.laws.StaticLaws.{TypesDependOnMentions};

/// The type of an expression is a type, and its user types are declared; scopes as they are made
/// are such that it is.
pub fn types_are_known()
    ensures types { TypesAreKnown }
    ensures scopes { ScopesAreKept }
{}

/// The relvars and the types that an expression mentions are known.
pub fn mentions_are_known()
    ensures { MentionsAreKnown }
{}

/// The type of an expression depends only on the types and relvars that it mentions, and on the
/// types that these are made of; it is made of no other types.
pub fn types_depend_on_mentions()
    ensures same { TypesDependOnMentions }
    ensures made { TypesAreMadeOfMentions }
{}

/// Where more types and relvars are known, an expression that has a type has the same.
pub fn more_changes_nothing()
    ensures { MoreChangesNothing }
{}

/// Where a relvar or a type is dropped, an expression that does not mention it has the same type.
pub fn drops_change_nothing()
    ensures { DropsChangeNothing }
{}

/// The names that `mentions` answers are exactly those that stand in the expression.
pub fn names_are_a_set()
    ensures { NamesAreASet }
{}

/// Whatever is known, the relvars that an expression mentions are among the names that stand in it.
pub fn relvars_are_named()
    ensures { RelvarsAreNamed }
{}

/// `resolve`, `check_expr` and `check_statement` refuse by the causes of types, of expressions and
/// of statements alone.
pub fn causes_are_static()
    ensures { CausesAreStatic }
{}
