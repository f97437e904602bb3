//! What sets of tuples, the order of values and their literals are to their callers: each function
//! has its contract alone.
ghost use Rattle.td_value.specs.laws.AgreementLaws.{AgreementIsOfValues, ProjectionsKeepValues};
ghost use Rattle.td_value.specs.laws.AgreementLaws.{TuplesAreTheirValues};
ghost use Rattle.td_value.specs.laws.KnownValueLaws.{KnownValuesHaveKnownTypes};
ghost use Rattle.td_value.specs.laws.KnownValueLaws.{KnownValuesHaveTheirTypes};
ghost use Rattle.td_value.specs.laws.KnownValueLaws.{LongerListsKeepTypes};
ghost use Rattle.td_value.specs.laws.KnownValueLaws.{TuplesHaveTheHeadingsOfTheirValues};
ghost use Rattle.td_value.specs.laws.KnownValueLaws.{UserValuesAreOfTheirTypes, ValuesHaveOneType};
ghost use Rattle.td_value.specs.laws.LiteralTrees.{LiteralsAreLow};
ghost use Rattle.td_value.specs.laws.Laws.{EqualityIsSameness, LiteralsTellValuesApart};
ghost use Rattle.td_value.specs.laws.Laws.{RelationsAreTheirMembers, RelationsCompareByRows};
ghost use Rattle.td_value.specs.laws.Laws.{SetsHaveTheMembersOfTheirLists, SetsOfJoinedLists};
ghost use Rattle.td_value.specs.laws.Laws.{TuplesCompareByValues, TypesOfValuesAreTypes};
ghost use Rattle.td_value.specs.laws.Laws.{UserValuesCompareByComponents};
ghost use Rattle.td_value.specs.laws.LiteralTrees.{LiteralsSpellTheirTrees};

/// `==` on values, on tuples and on relations tells whether they are the same.
pub fn equality_is_sameness()
    ensures { EqualityIsSameness }
{}

/// Tuples of the same names compare as their values do.
pub fn tuples_compare_by_values()
    ensures { TuplesCompareByValues }
{}

/// Values of one user type compare as their components do.
pub fn user_values_compare_by_components()
    ensures { UserValuesCompareByComponents }
{}

/// Relations of one heading compare as their tuples do, in order.
pub fn relations_compare_by_rows()
    ensures { RelationsCompareByRows }
{}

/// Two values have one literal exactly where they are one, whatever their types are.
pub fn literals_tell_values_apart()
    ensures { LiteralsTellValuesApart }
{}

/// The type of a value is a type: names in it are names, and its headings are headings.
pub fn types_of_values_are_types()
    ensures { TypesOfValuesAreTypes }
{}

/// The set of a list of tuples has the members of the list, and no other.
pub fn sets_have_the_members_of_their_lists()
    ensures { SetsHaveTheMembersOfTheirLists }
{}

/// The set of two lists of tuples joined has the members of either, and no other.
pub fn sets_of_joined_lists()
    ensures { SetsOfJoinedLists }
{}

/// A relation is its heading and its members: two of one heading with the same members are one.
pub fn relations_are_their_members()
    ensures { RelationsAreTheirMembers }
{}

/// The tokens of a value's literal spell the value's tree, where that is not too high.
pub fn literals_spell_their_trees()
    ensures { LiteralsSpellTheirTrees }
{}

/// A value keeps its type where more types are declared.
pub fn longer_lists_keep_types()
    ensures { LongerListsKeepTypes }
{}

/// The type of a value that is of a type, where types are declared, is that type.
pub fn known_values_have_their_types()
    ensures { KnownValuesHaveTheirTypes }
{}

/// No value is of two types, wherever they are declared.
pub fn values_have_one_type()
    ensures { ValuesHaveOneType }
{}

/// The user types in the type of a value are declared, at every depth.
pub fn known_values_have_known_types()
    ensures { KnownValuesHaveKnownTypes }
{}

/// A tuple has a heading exactly where that is its own, and each of its values is of its own type.
pub fn tuples_have_the_headings_of_their_values()
    ensures { TuplesHaveTheHeadingsOfTheirValues }
{}

/// A user value is of its declared type exactly where its components have the types of that type's
/// components, and each is of its own type.
pub fn user_values_are_of_their_types()
    ensures { UserValuesAreOfTheirTypes }
{}

/// The tree of a value's literal is at most twice as high as the rank of the value's type.
pub fn literals_are_low()
    ensures { LiteralsAreLow }
{}

/// Tuples are the values that they give to names: two that give each name the same value are one.
pub fn tuples_are_their_values()
    ensures { TuplesAreTheirValues }
{}

/// The projection of a tuple gives the names that it is on their values, and no other a value.
pub fn projections_keep_values()
    ensures { ProjectionsKeepValues }
{}

/// Two tuples agree on names exactly where they give each of them the same value.
pub fn agreement_is_of_values()
    ensures { AgreementIsOfValues }
{}
