//! The laws of definitions, loops and `tagcase`.
ghost use Rattle.breaking_laws.specs.PartLaws.{TwiceLaw, DefinedTwiceLaw, AfterDefsLaw, ValuesLaw, TargetsLaw, CountLaw, OneTargetLaw, MisnamedLaw, DeclaredLaw, RetypedLaw, RenewingLaw, TurnDefsLaw, TurnTestLaw, TruthLaw, InitialDefsLaw, InitialTurnLaw, InitialClausesLaw, ClauseValueLaw, ClauseMaskLaw, MaskLaw, OneClauseLaw, UnmadeLaw, DeepLaw, OneMadeLaw, ThroughLaw, MadeLaw, FromLaw, ToLaw, NoSourceLaw, OneGeneratorLaw, GroupTwiceLaw, AfterGroupsLaw, ProductGroupsLaw, ProductDefsLaw, ProductClausesLaw, ArmTagsLaw, ArmResultsLaw, AfterArmsLaw, ArmResultLaw, NoResultsLaw, MoreResultsLaw, CaseSubjectLaw, CaseNoUnionLaw, CaseArmsLaw, CaseOtherwiseLaw, CaseNoArmLaw, CaseDifferLaw, CaseOtherwiseDiffersLaw};

/// A name that stands twice is found, on its line.
pub fn a_name_stands_twice()
    ensures { TwiceLaw }
{}

/// Definitions are refused where a target stands twice.
pub fn a_target_stands_twice()
    ensures { DefinedTwiceLaw }
{}

/// Definitions are refused where one behind typed ones is.
pub fn a_later_definition_is_refused()
    ensures { AfterDefsLaw }
{}

/// A definition is refused where its values are.
pub fn the_values_of_a_definition_are_refused()
    ensures { ValuesLaw }
{}

/// A definition is refused where its targets are over its values.
pub fn the_targets_of_a_definition_are_refused()
    ensures { TargetsLaw }
{}

/// Targets are refused over another number of values.
pub fn another_number_of_values_is_refused()
    ensures { CountLaw }
{}

/// Targets are refused where one is over its value.
pub fn a_target_is_refused()
    ensures { OneTargetLaw }
{}

/// A target is refused where its written type is.
pub fn a_declared_type_is_refused()
    ensures { MisnamedLaw }
{}

/// A target is refused over a value of another type than is declared.
pub fn another_type_than_declared_is_refused()
    ensures { DeclaredLaw }
{}

/// A loop name is refused over a value of another type than before.
pub fn another_type_of_a_loop_name_is_refused()
    ensures { RetypedLaw }
{}

/// The definitions of a turn are refused where they are in the turn.
pub fn the_definitions_of_a_turn_are_refused()
    ensures { RenewingLaw }
{}

/// A turn is refused where its definitions are.
pub fn a_turn_is_refused_by_its_definitions()
    ensures { TurnDefsLaw }
{}

/// A turn is refused where its test is.
pub fn a_turn_is_refused_by_its_test()
    ensures { TurnTestLaw }
{}

/// A turn is refused where its test is no boolean.
pub fn a_test_that_is_no_boolean_is_refused()
    ensures { TruthLaw }
{}

/// `for initial` is refused where its definitions are.
pub fn a_loop_is_refused_by_its_definitions()
    ensures { InitialDefsLaw }
{}

/// `for initial` is refused where its turn is.
pub fn a_loop_is_refused_by_its_turn()
    ensures { InitialTurnLaw }
{}

/// `for initial` is refused where its clauses are.
pub fn a_loop_is_refused_by_its_clauses()
    ensures { InitialClausesLaw }
{}

/// A clause is refused where its value is.
pub fn the_value_of_a_clause_is_refused()
    ensures { ClauseValueLaw }
{}

/// A clause is refused where its mask is.
pub fn the_mask_of_a_clause_is_refused()
    ensures { ClauseMaskLaw }
{}

/// A clause is refused where its mask is no boolean.
pub fn a_mask_that_is_no_boolean_is_refused()
    ensures { MaskLaw }
{}

/// Clauses are refused where one is.
pub fn a_clause_is_refused()
    ensures { OneClauseLaw }
{}

/// A clause is refused over values of which it makes nothing.
pub fn a_clause_that_makes_nothing_is_refused()
    ensures { UnmadeLaw }
{}

/// A clause is refused where it would make too deep a type.
pub fn a_clause_that_makes_too_deep_a_type_is_refused()
    ensures { DeepLaw }
{}

/// Clauses are refused over values where one is over its values.
pub fn a_clause_is_refused_over_its_values()
    ensures { OneMadeLaw }
{}

/// Clauses are refused over values where they are over what they make of these.
pub fn clauses_are_refused_through_a_group()
    ensures { ThroughLaw }
{}

/// Clauses are refused where they are over their typed values.
pub fn clauses_are_refused_over_typed_values()
    ensures { MadeLaw }
{}

/// A generator is refused where its first bound is.
pub fn the_lower_bound_of_a_generator_is_refused()
    ensures { FromLaw }
{}

/// A generator is refused where its second bound is.
pub fn the_upper_bound_of_a_generator_is_refused()
    ensures { ToLaw }
{}

/// A generator is refused over what is no range of integers, array or stream.
pub fn a_generator_over_nothing_is_refused()
    ensures { NoSourceLaw }
{}

/// A group is refused where one of its generators is.
pub fn a_generator_is_refused()
    ensures { OneGeneratorLaw }
{}

/// A group is refused where one of its names stands twice.
pub fn a_name_of_a_group_stands_twice()
    ensures { GroupTwiceLaw }
{}

/// Groups are refused where one behind typed ones is.
pub fn a_later_group_is_refused()
    ensures { AfterGroupsLaw }
{}

/// `for` over groups is refused where they are.
pub fn a_loop_is_refused_by_its_groups()
    ensures { ProductGroupsLaw }
{}

/// `for` over groups is refused where its definitions are.
pub fn a_loop_over_groups_is_refused_by_its_definitions()
    ensures { ProductDefsLaw }
{}

/// `for` over groups is refused where its clauses are.
pub fn a_loop_over_groups_is_refused_by_its_clauses()
    ensures { ProductClausesLaw }
{}

/// An arm is refused where its tags are.
pub fn the_tags_of_an_arm_are_refused()
    ensures { ArmTagsLaw }
{}

/// An arm is refused where its results are.
pub fn the_results_of_an_arm_are_refused()
    ensures { ArmResultsLaw }
{}

/// Arms are refused where one behind others is.
pub fn a_later_arm_is_refused()
    ensures { AfterArmsLaw }
{}

/// The results of an arm are those of the first, or differ from them.
pub fn an_arm_has_results()
    ensures { ArmResultLaw }
{}

/// No arm adds no results.
pub fn no_arm_has_results()
    ensures { NoResultsLaw }
{}

/// Arms add their results one after another.
pub fn more_arms_have_results()
    ensures { MoreResultsLaw }
{}

/// `tagcase` is refused where its subject is.
pub fn a_tagcase_is_refused_by_its_subject()
    ensures { CaseSubjectLaw }
{}

/// `tagcase` is refused where its subject is no union.
pub fn a_tagcase_over_no_union_is_refused()
    ensures { CaseNoUnionLaw }
{}

/// `tagcase` is refused where an arm is.
pub fn a_tagcase_is_refused_by_its_arms()
    ensures { CaseArmsLaw }
{}

/// `tagcase` is refused where the results of `otherwise` are.
pub fn a_tagcase_is_refused_by_its_last_results()
    ensures { CaseOtherwiseLaw }
{}

/// `tagcase` is refused where a tag has no arm and there is no `otherwise`.
pub fn a_tag_without_an_arm_is_refused()
    ensures { CaseNoArmLaw }
{}

/// `tagcase` is refused where two arms have results of other types.
pub fn arms_that_differ_are_refused()
    ensures { CaseDifferLaw }
{}

/// `tagcase` is refused where `otherwise` has results of other types.
pub fn last_results_that_differ_are_refused()
    ensures { CaseOtherwiseDiffersLaw }
{}
