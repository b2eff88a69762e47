//! The laws.
ghost use Rattle.one_lowering.specs.Laws.{AreNumbersNothing, IsOneLowering};

use typing_unique::typed_trees_are_one_where_numbers_agree;

/// A program at another table in which its types have the same forms has the same unit, and is past
/// the same limits.
pub fn numbers_of_types_make_no_graphs()
    ensures { AreNumbersNothing }
{}

/// Two typed trees of one unit have the same units of graphs, and are past the same limits.
pub fn typed_trees_are_lowered_alike()
    ensures { IsOneLowering }
{
    typed_trees_are_one_where_numbers_agree();
    numbers_of_types_make_no_graphs();
}
