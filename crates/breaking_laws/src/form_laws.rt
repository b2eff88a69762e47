//! The laws of refused expressions.
ghost use Rattle.breaking_laws.specs.FormLaws.{UnknownLaw, NoLoopNameLaw, NotOneLaw, OneLaw, ListLaw, FieldLaw, GroupLaw, OperandLaw, ElementsLaw, FieldsLaw, NoTypeLaw, WrittenLaw, ErrorOfLaw, RefusedLaw, ArgumentsLaw, RefusedCallLaw, DefinitionsLaw, ResultsLaw, TestLaw, ThenLaw, ElseLaw, UnevenLaw, BodyLaw};

/// A name that stands for nothing, or for nothing yet, breaks rule 9.
pub fn an_unknown_name_is_refused()
    ensures { UnknownLaw }
{}

/// `old` before a name of no loop around breaks rule 10.
pub fn a_name_of_no_loop_is_refused()
    ensures { NoLoopNameLaw }
{}

/// An expression of no value or several breaks rule 16 where one is wanted.
pub fn several_values_are_refused()
    ensures { NotOneLaw }
{}

/// Where one value is wanted, what the expression breaks is broken.
pub fn a_value_breaks_in_itself()
    ensures { OneLaw }
{}

/// What one of some expressions breaks the list breaks.
pub fn a_list_breaks_in_a_part()
    ensures { ListLaw }
{}

/// What the value of one of some fields breaks the fields break.
pub fn fields_break_in_a_value()
    ensures { FieldLaw }
{}

/// What an expression breaks it breaks in parentheses too.
pub fn a_group_breaks_inside()
    ensures { GroupLaw }
{}

/// What an operand breaks the form breaks.
pub fn a_form_breaks_in_an_operand()
    ensures { OperandLaw }
{}

/// What the elements of an array or a stream break it breaks.
pub fn a_form_breaks_in_its_elements()
    ensures { ElementsLaw }
{}

/// What the values of fields break the record breaks.
pub fn a_form_breaks_in_its_fields()
    ensures { FieldsLaw }
{}

/// A constructor whose type is not known breaks rule 2.
pub fn an_unknown_type_is_refused()
    ensures { NoTypeLaw }
{}

/// A written type breaks what it breaks where the names of types are known by number.
pub fn a_written_type_breaks()
    ensures { WrittenLaw }
{}

/// What the type of `error` breaks the expression breaks.
pub fn an_error_breaks_in_its_type()
    ensures { ErrorOfLaw }
{}

/// A form over typed operands that is refused by number breaks the rule: operators, conversions,
/// selections, constructors.
pub fn a_form_is_refused()
    ensures { RefusedLaw }
{}

/// What the arguments of a call break the call breaks.
pub fn a_call_breaks_in_its_arguments()
    ensures { ArgumentsLaw }
{}

/// A call over typed operands that is refused by number breaks the rule.
pub fn a_call_is_refused()
    ensures { RefusedCallLaw }
{}

/// What the definitions of `let` break it breaks.
pub fn a_let_breaks_in_its_definitions()
    ensures { DefinitionsLaw }
{}

/// What the results of `let` break behind typed definitions it breaks.
pub fn a_let_breaks_in_its_results()
    ensures { ResultsLaw }
{}

/// What the test of `if` breaks it breaks.
pub fn an_if_breaks_in_its_test()
    ensures { TestLaw }
{}

/// What the first part of `if` breaks it breaks.
pub fn an_if_breaks_in_its_first_part()
    ensures { ThenLaw }
{}

/// What the last part of `if` breaks it breaks.
pub fn an_if_breaks_in_its_last_part()
    ensures { ElseLaw }
{}

/// `if` whose test is no boolean, or whose parts have other types, breaks rule 17.
pub fn an_uneven_if_is_refused()
    ensures { UnevenLaw }
{}

/// What the results of a function break the unit breaks, and rule 13 where their types are others than
/// those of the header.
pub fn a_body_is_refused()
    ensures { BodyLaw }
{}
