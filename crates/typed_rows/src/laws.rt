//! The laws of operations and folds on typed values.
ghost use Rattle.typed_rows.specs.Rows.{AreRowsWell, AreFoldsWell};

/// Operands of the types of a row give a value of its type.
pub fn rows_give_values_of_their_types()
    ensures { AreRowsWell }
{}

/// Values of a type are folded into a value of what is made of them.
pub fn folds_give_values_of_their_types()
    ensures { AreFoldsWell }
{}
