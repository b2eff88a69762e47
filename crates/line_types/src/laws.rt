//! The laws.
ghost use Rattle.line_types.specs.Laws.{IsTraced, AreFaultsTraced, AreLinesTraced};

/// The table of types of a program is that of the walk.
pub fn tables_are_traced()
    ensures { IsTraced }
{}

/// It is too large in the same function.
pub fn faults_are_traced()
    ensures { AreFaultsTraced }
{}

/// The walk meets whatever a line carries.
pub fn lines_are_traced()
    ensures { AreLinesTraced }
{}
