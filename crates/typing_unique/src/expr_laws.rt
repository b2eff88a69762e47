//! The laws on expressions.
ghost use Rattle.typing_unique.specs.ExprLaws.{ProperLaw, OneTypeLaw, OneListLaw, OneScopeLaw, OneTypedLaw, OneTypedListLaw, NoTypeLaw, NoOneLaw, NoListLaw, NoScopeLaw};

/// No type of an expression has a field or a tag twice.
pub fn types_are_proper()
    ensures { ProperLaw }
{}

/// An expression has one list of types.
pub fn an_expression_has_one_list_of_types()
    ensures { OneTypeLaw }
{}

/// Expressions one after another have one list of types.
pub fn expressions_have_one_list_of_types()
    ensures { OneListLaw }
{}

/// Definitions define names of one list of types, and lead to one scope.
pub fn definitions_lead_to_one_scope()
    ensures { OneScopeLaw }
{}

/// At a table in which each type has one number, an expression has one typed tree.
pub fn an_expression_has_one_typed_tree()
    ensures { OneTypedLaw }
{}

/// At a table in which each type has one number, expressions one after another have one list of
/// typed trees.
pub fn expressions_have_one_list_of_typed_trees()
    ensures { OneTypedListLaw }
{}

/// An expression that breaks a rule has no types.
pub fn what_breaks_a_rule_has_no_type()
    ensures { NoTypeLaw }
{}

/// Where one value is wanted and a rule is broken there is no value of one type.
pub fn what_breaks_a_rule_is_not_one_value()
    ensures { NoOneLaw }
{}

/// Expressions of which one breaks a rule have no types.
pub fn lists_that_break_a_rule_have_no_types()
    ensures { NoListLaw }
{}

/// Definitions that break a rule define nothing.
pub fn definitions_that_break_a_rule_define_nothing()
    ensures { NoScopeLaw }
{}
