//! Errors of nodes, by example: one for each place of the node tables that has an error.
//!
//! The order is that of the tables: simple nodes by what they work on, with the causes of their own first; then errors at
//! their ports; then compound nodes.
ghost use Rattle.flow_value.specs.declared.cause.Cause.{Cause};
ghost use Rattle.flow_value.specs.declared.value.Val.{Val};
ghost use Rattle.if1_graph.specs.declared.op.Grouping.{Grouping};
ghost use Rattle.std.specs.Prelude.{List};
ghost use Rattle.graph_examples.specs.ScalarErrors.{AreScalarErrors, AreForeignScalars};
ghost use Rattle.graph_examples.specs.ListErrors.{AreListsTooLong, AreBoundsTooGreat, AreIndicesOutside, AreListsEmpty, AreForeignLists};
ghost use Rattle.graph_examples.specs.RecordErrors.{AreForeignRecords};
ghost use Rattle.graph_examples.specs.FoldErrors.{AreGeneratorsSpoiled, AreGathersFailing, AreLastsFailing, AreReductionsFailing, AreElementsFailing, AreForeignElements};
ghost use Rattle.graph_examples.specs.NumberErrors.{AreNumbersForeign};
ghost use Rattle.graph_examples.specs.StrictErrors.{AreScalarsStrict, AreListsStrict, AreRecordsStrict, AreGeneratorsStrict, AreFoldsStrict, AreErrorsPassed};
ghost use Rattle.graph_examples.specs.CompoundErrors.{ArePartsForeign, AreCallsPassing, AreSelectsFailing, AreTagCasesFailing, AreLoopsFailing, AreForAllsFailing};

/// Each cause of an error that a scalar node has of its own.
pub fn scalar_nodes_fail()
    ensures { AreScalarErrors }
{}

/// Operands that no row of a scalar node has.
pub fn foreign_scalars_fail()
    ensures { AreForeignScalars }
{}

/// Arrays and streams of more than 4,194,304 elements.
pub fn lists_too_long_fail()
    ensures { AreListsTooLong }
{}

/// Arrays whose bounds do not fit 64 signed bits.
pub fn bounds_too_great_fail()
    ensures { AreBoundsTooGreat }
{}

/// Indices and places that an array does not have.
pub fn indices_outside_fail()
    ensures { AreIndicesOutside }
{}

/// An element of an array or stream that has none.
pub fn empty_lists_fail()
    ensures { AreListsEmpty }
{}

/// Operands that no row of a node on arrays and streams has.
pub fn foreign_lists_fail()
    ensures { AreForeignLists }
{}

/// Operands that no row of a node on records and unions has.
pub fn foreign_records_fail()
    ensures { AreForeignRecords }
{}

/// Ranges and scattered values that are errors as a whole.
pub fn generators_fail()
    ensures { AreGeneratorsSpoiled }
{}

/// Arrays and streams of kept elements that are errors.
pub fn gathers_fail()
    ensures { AreGathersFailing }
{}

/// The last kept element, where none is kept or the mask is an error.
pub fn lasts_fail()
    ensures { AreLastsFailing }
{}

/// Reductions that are errors of their own, with each of the four reduction nodes.
pub fn reductions_fail()
    ensures { (g : Grouping) → AreReductionsFailing g }
{}

/// Reductions of elements that are errors, with each of the four reduction nodes.
pub fn elements_fail()
    ensures { (g : Grouping) → AreElementsFailing g }
{}

/// Elements, masks and names that no row of a reduction has.
pub fn foreign_elements_fail()
    ensures { (g : Grouping) → AreForeignElements g }
{}

/// Simple nodes with fewer or more operands than their row has.
pub fn foreign_numbers_fail()
    ensures { (v : Val) → AreNumbersForeign v }
{}

/// The error of the least port of scalar nodes.
pub fn scalar_nodes_are_strict()
    ensures { (c d : Cause) → AreScalarsStrict c d }
{}

/// The error of the least strict port of nodes on arrays and streams.
pub fn nodes_on_lists_are_strict()
    ensures { (c d : Cause) (v : Val) → AreListsStrict c d v }
{}

/// The error of a record is that of each field.
pub fn nodes_on_records_are_strict()
    ensures { (c d : Cause) → AreRecordsStrict c d }
{}

/// The error of the least port of generators, as a whole multiple.
pub fn generators_are_strict()
    ensures { (c d : Cause) → AreGeneratorsStrict c d }
{}

/// The error of the least port of folds.
pub fn folds_are_strict()
    ensures { (c d : Cause) (vs : List Val) → AreFoldsStrict c d vs }
{}

/// Where an error goes on as a value.
pub fn errors_are_passed()
    ensures { (c : Cause) → AreErrorsPassed c }
{}

/// Selectors and tests that give no result or two, and a TagCase without an input.
pub fn foreign_parts_fail()
    ensures { ArePartsForeign }
{}

/// A Call passes an argument on that is an error.
pub fn calls_pass_errors()
    ensures { AreCallsPassing }
{}

/// A Select without an alternative, and its errors.
pub fn selects_fail()
    ensures { (c d : Cause) → AreSelectsFailing c d }
{}

/// A TagCase without an arm, and its errors.
pub fn tag_cases_fail()
    ensures { (c d : Cause) → AreTagCasesFailing c d }
{}

/// Loops whose test gives no boolean, and their errors.
pub fn loops_fail()
    ensures { (c d : Cause) → AreLoopsFailing c d }
{}

/// A ForAll whose multiples are errors or differ in length, and its errors.
pub fn for_alls_fail()
    ensures { (c d : Cause) → AreForAllsFailing c d }
{}
