//! The laws.
ghost use Rattle.typing_laws.specs.Laws.{ConstantLaw, NameLaw, OldNameLaw, GroupLaw, CallLaw, IfLaw, LetLaw, FormLaw, ArrayHeadLaw, OnceLaw, FunctionLaw, WrittenLaw, DefinitionLaw, TagcaseLaw, ArmLaw, GeneratorLaw, ClauseLaw, ValueLaw, ProductLaw, GroupLoopLaw, OuterLoopLaw, TurnLaw, TurnsLaw};
ghost use Rattle.typing_laws.specs.Said.{IsStandingKept};

/// A constant is typed.
pub fn a_constant_is_typed()
    ensures { ConstantLaw }
{}

/// A name in force is typed.
pub fn a_name_is_typed()
    ensures { NameLaw }
{}

/// `old` and the name of a loop are typed.
pub fn an_old_name_is_typed()
    ensures { OldNameLaw }
{}

/// An expression in parentheses is typed where the one inside is.
pub fn a_group_is_typed()
    ensures { GroupLaw }
{}

/// A call of a function of the program, or of one that is built in, is typed over typed operands.
pub fn a_call_is_typed()
    ensures { CallLaw }
{}

/// `if` is typed where its test is a boolean and its two parts have the same types.
pub fn an_if_is_typed()
    ensures { IfLaw }
{}

/// `let` is typed where its definitions and its results are.
pub fn a_let_is_typed()
    ensures { LetLaw }
{}

/// A form over typed operands is typed: operators, conversions, selections, constructors.
pub fn a_form_is_typed()
    ensures { FormLaw }
{}

/// The form of an array whose type is named.
pub fn a_name_of_a_type_is_resolved()
    ensures { ArrayHeadLaw }
{}

/// Names none of which stands before it all differ.
pub fn names_are_distinct()
    ensures { OnceLaw }
{}

/// A function is typed where its results have the types that its header says.
pub fn a_function_is_typed()
    ensures { FunctionLaw }
{}

/// A written type denotes the type of its number in each larger table.
pub fn a_written_type_is_denoted()
    ensures { WrittenLaw }
{}

/// Definitions with one more behind them are typed.
pub fn definitions_are_typed()
    ensures { DefinitionLaw }
{}

/// `tagcase` is typed where its arms are.
pub fn a_tagcase_is_typed()
    ensures { TagcaseLaw }
{}

/// Arms with one more behind them are typed.
pub fn an_arm_is_typed()
    ensures { ArmLaw }
{}

/// Generators with one more behind them are typed.
pub fn generators_are_typed()
    ensures { GeneratorLaw }
{}

/// What clauses make of values, with one more behind them.
pub fn a_clause_is_typed()
    ensures { ClauseLaw }
{}

/// The value of a clause with its mask.
pub fn a_value_of_a_clause_is_typed()
    ensures { ValueLaw }
{}

/// `for` over groups of generators is typed where the loops over each are.
pub fn a_loop_over_groups_is_typed()
    ensures { ProductLaw }
{}

/// A loop over one group of generators is typed.
pub fn a_loop_over_a_group_is_typed()
    ensures { GroupLoopLaw }
{}

/// A loop over a group of generators around another loop is typed.
pub fn a_loop_around_another_is_typed()
    ensures { OuterLoopLaw }
{}

/// The definitions of a turn are typed where the loop names are those of the turn before.
pub fn a_turn_is_typed()
    ensures { TurnLaw }
{}

/// `for initial` is typed where its parts are.
pub fn a_loop_of_turns_is_typed()
    ensures { TurnsLaw }
{}

/// Each number of a table stands for a type, also once a type more is in it.
pub fn numbers_stand()
    ensures { IsStandingKept }
{}
