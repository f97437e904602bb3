//! What the values of expressions are to their callers: each function has its contract alone.
ghost use Rattle.td_eval.specs.laws.LiteralValues.{CutTypesKeepConstraints};
ghost use Rattle.td_eval.specs.laws.LiteralValues.{DropsKeepWhatMeets, LaterTypesKeepWhatMeets};
ghost use Rattle.td_eval.specs.laws.LiteralValues.{LiteralsHaveTheirTypes};
ghost use Rattle.td_eval.specs.laws.LiteralValues.{LiteralsHaveTheirValues, SelectorsGiveWhatMeets};
ghost use Rattle.td_eval.specs.laws.LiteralValues.{StoredLiteralsHaveTheirValues};
ghost use Rattle.td_eval.specs.laws.LiteralValues.{WhatSelectorsGiveMeets};
ghost use Rattle.td_eval.specs.laws.MetConstraintLaws.{AssignedRelationsMeetConstraints};
ghost use Rattle.td_eval.specs.laws.MetConstraintLaws.{ValuesMeetConstraints};
ghost use Rattle.td_eval.specs.laws.ReachedRelvars.{UnreachedValuesStay};
ghost use Rattle.td_eval.specs.laws.TreeNumbers.{SpelledNumbersAreInRange};
ghost use Rattle.td_eval.specs.laws.UnfailingValues.{OtherRelationsGiveValues};
ghost use Rattle.td_eval.specs.laws.UnfailingValues.{TypedDatabasesGiveValues};
ghost use Rattle.td_eval.specs.laws.UnfailingValues.{UnfailingExpressionsHaveValues};
ghost use Rattle.td_eval.specs.laws.ValueLaws.{DropsChangeNoValue, LaterEntriesChangeNothing};
ghost use Rattle.td_eval.specs.laws.ValueLaws.{NewSettingsExtend, SummarizeByIsPerOfTheProjection};
ghost use Rattle.td_eval.specs.laws.ValueLaws.{TupleOrderDoesNotCount};
ghost use Rattle.td_eval.specs.laws.ValueLaws.{ValuesDependOnEntries, ValuesDependOnMentions};
ghost use Rattle.td_eval.specs.laws.ValueTypes.{TypedDatabasesKeepScopes, OtherRelationsKeepScopes};
ghost use Rattle.td_eval.specs.laws.ValueTypes.{ValuesKeepTypes};

/// An expression that has a type has, if it has a value, a value of that type, and else causes of
/// evaluation alone: OVERFLOW, ZERO_DIVISOR, EMPTY_AGGREGATE, NOT_ONE_TUPLE, TYPE_CONSTRAINT,
/// NOT_DISJOINT or NOT_INCLUDED.
pub fn values_keep_types()
    ensures { ValuesKeepTypes }
{}

/// Typed databases are worlds in which that holds, also with another relation in place of what a
/// base relvar holds.
pub fn typed_databases_keep_scopes()
    ensures typed { TypedDatabasesKeepScopes }
    ensures other { OtherRelationsKeepScopes }
{}

/// An expression that has a type and cannot fail has a value, of that type, whatever relations of
/// their headings the base relvars hold.
pub fn unfailing_expressions_have_values()
    ensures { UnfailingExpressionsHaveValues }
{}

/// Typed databases are worlds in which that holds, also with another relation in place of what a
/// base relvar holds.
pub fn typed_databases_give_values()
    ensures typed { TypedDatabasesGiveValues }
    ensures other { OtherRelationsGiveValues }
{}

/// The numbers in what tokens spell are in INTEGER's range.
pub fn spelled_numbers_are_in_range()
    ensures { SpelledNumbersAreInRange }
{}

/// The value of an expression that has a type depends only on what it mentions.
pub fn values_depend_on_mentions()
    ensures { ValuesDependOnMentions }
{}

/// In typed databases that agree on the entries that it mentions, it has the same value.
pub fn values_depend_on_entries()
    ensures { ValuesDependOnEntries }
{}

/// Where base relvars hold other relations, an expression that names nothing which that reaches has
/// the value that it had.
pub fn unreached_values_stay()
    ensures { UnreachedValuesStay }
{}

/// Types, relvars and constraints that are added to a database change no value of an expression
/// that has a type in it.
pub fn later_entries_change_nothing()
    ensures { LaterEntriesChangeNothing }
{}

/// A type, a relvar or a constraint that is dropped changes no value of an expression that does not
/// mention it.
pub fn drops_change_no_value()
    ensures { DropsChangeNoValue }
{}

/// WHERE, EXTEND, aggregates and SUMMARIZE give the same in whatever order the tuples of a relation
/// are taken.
pub fn tuple_order_does_not_count()
    ensures { TupleOrderDoesNotCount }
{}

/// EXTEND with settings gives what EXTEND with ADD gives where no attribute that is set is there.
pub fn new_settings_extend()
    ensures { NewSettingsExtend }
{}

/// SUMMARIZE BY is SUMMARIZE PER of the projection of its operand.
pub fn summarize_by_is_per_of_the_projection()
    ensures { SummarizeByIsPerOfTheProjection }
{}

/// The tree that the literal of a value spells has the value's type, and that value where
/// selectors give the user values in it.
pub fn literals_have_their_values()
    ensures types { LiteralsHaveTheirTypes }
    ensures values { LiteralsHaveTheirValues }
{}

/// The selectors of a typed database give the user values that meet the constraints of their types,
/// and no others, and go on to do so where types are added or one is dropped.
pub fn selectors_give_what_meets()
    ensures values { SelectorsGiveWhatMeets }
    ensures given { WhatSelectorsGiveMeets }
    ensures later { LaterTypesKeepWhatMeets }
    ensures dropped { DropsKeepWhatMeets }
{}

/// A type's constraint has the same value where the types behind that type are cut off.
pub fn cut_types_keep_constraints()
    ensures { CutTypesKeepConstraints }
{}

/// In a typed database the tree of the literal of a value whose user values meet the constraints
/// of their types has that value.
pub fn stored_literals_have_their_values()
    ensures { StoredLiteralsHaveTheirValues }
{}

/// Expressions have only user values that meet the constraints of their types, where the relvars,
/// the selectors and the tuples in scope give no others, as in a database that holds no others.
pub fn values_meet_constraints()
    ensures { ValuesMeetConstraints }
{}

/// What assignments make of relations whose user values meet their constraints has only such.
pub fn assigned_relations_meet_constraints()
    ensures { AssignedRelationsMeetConstraints }
{}
