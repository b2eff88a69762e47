//! The laws on written types and whole units.
ghost use Rattle.typing_unique.specs.Bare.{OneRenumberedLaw, OneShapeLaw};
ghost use Rattle.typing_unique.specs.UnitLaws.{OneDenotedLaw, NoneDenotedLaw, OneDeclaredLaw, OneTypingLaw, NoProgramLaw, OneTreeLaw};

/// Tokens begin with one written type at most, and it denotes one type.
pub fn a_written_type_is_one_type()
    ensures { OneDenotedLaw }
{}

/// What breaks a rule on written types is none.
pub fn what_misnames_is_no_type()
    ensures { NoneDenotedLaw }
{}

/// A unit has one list of functions.
pub fn a_unit_has_one_list_of_functions()
    ensures { OneDeclaredLaw }
{}

/// A unit is one program: two typed trees of it have functions of the same names and types.
pub fn a_unit_is_one_program()
    ensures { OneTypingLaw }
{}

/// A unit that breaks a rule is no program.
pub fn a_unit_that_breaks_a_rule_is_no_program()
    ensures { NoProgramLaw }
{}

/// Over one table, in which each type has one number, a unit has one typed tree.
pub fn a_unit_is_one_typed_tree()
    ensures { OneTreeLaw }
{}

/// Two typed trees of one unit, over any two tables of types, are one tree but for the numbers of
/// types.
pub fn typed_trees_have_one_shape()
    ensures { OneShapeLaw }
{}

/// Two typed trees of one unit, over any two tables of types, are one tree where numbers of one
/// type are given one number.
pub fn typed_trees_are_one_where_numbers_agree()
    ensures { OneRenumberedLaw }
{}
