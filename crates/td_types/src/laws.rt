//! What types and headings are to their callers: each function has its contract alone.
ghost use Rattle.td_types.specs.laws.HeadingLaws.{AgreementIsOneType, RenamingKeepsTypes};
ghost use Rattle.td_types.specs.laws.HeadingLaws.{TypesDetermineHeading};
ghost use Rattle.td_types.specs.code.NameTests.{NameTestsTell};
ghost use Rattle.td_types.specs.laws.TextLaws.{TextsTellTypesApart};
ghost use Rattle.td_types.specs.laws.TypeListLaws.{ComponentsHaveLesserRanks, KnownTypesHaveRanks};
ghost use Rattle.td_types.specs.laws.TypeListLaws.{LaterTypesKeepMeanings, LaterTypesKeepNames};
ghost use Rattle.td_types.specs.laws.TypeListLaws.{LaterTypesKeepRanks, MeantTypesAreKnown};
ghost use Rattle.td_types.specs.laws.TypeListLaws.{TypeTreesMeanTheirTypes};
ghost use Rattle.td_types.specs.laws.TypeTrees.{TypeTextsSpellTheirTrees};

/// Two headings that give every name the same type are equal.
pub fn types_determine_heading()
    ensures { TypesDetermineHeading }
{}

/// Two headings agree exactly where each name that both have has one type.
pub fn agreement_is_one_type()
    ensures { AgreementIsOneType }
{}

/// Renaming gives each new name the type of its old one, and there are no other names.
pub fn renaming_keeps_types()
    ensures { RenamingKeepsTypes }
{}

/// Two types have one text exactly where they are one.
pub fn texts_tell_types_apart()
    ensures { TextsTellTypesApart }
{}

/// A name is among names where the list contains it, and names are distinct where none stands at
/// two places.
pub fn name_tests_tell()
    ensures { NameTestsTell }
{}

/// What a type tree of names means is a type, and its user types are declared.
pub fn meant_types_are_known()
    ensures { MeantTypesAreKnown }
{}

/// The tree of a type whose user types are declared means the type.
pub fn type_trees_mean_their_types()
    ensures { TypeTreesMeanTheirTypes }
{}

/// Where more types are declared, names find what they found, trees mean what they meant, and
/// types have the ranks that they had.
pub fn later_types_change_nothing()
    ensures names { LaterTypesKeepNames }
    ensures meanings { LaterTypesKeepMeanings }
    ensures ranks { LaterTypesKeepRanks }
{}

/// A type whose user types are declared has a rank, which is at least 1.
pub fn known_types_have_ranks()
    ensures { KnownTypesHaveRanks }
{}

/// The type of each component of a declared type has a lesser rank.
pub fn components_have_lesser_ranks()
    ensures { ComponentsHaveLesserRanks }
{}

/// The tokens of a type's text spell the type's tree.
pub fn type_texts_spell_their_trees()
    ensures { TypeTextsSpellTheirTrees }
{}
