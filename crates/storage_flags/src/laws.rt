//! What edges tell of the ports where they are found.
ghost use Rattle.storage_flags.specs.Flags.{DoMarksTell, DoConsumersTell, DoConsumerRowsTell, DoRowsStand};

/// What a port takes is told by the mark of the edge that is found there.
pub fn marks_tell_what_is_taken()
    ensures { DoMarksTell }
{}

/// An aggregate is consumed at a port if the edge that is found there consumes.
pub fn consuming_edges_tell_what_is_given()
    ensures { DoConsumersTell }
{}

/// Rows that tell of each edge whether it consumes tell of each port with an edge whether an aggregate
/// is consumed there.
pub fn consuming_rows_tell_what_is_given()
    ensures { DoConsumerRowsTell }
{}

/// Flags that stand in the order of the graphs, behind a first row, are in the rows of the graphs'
/// numbers.
pub fn rows_stand_by_numbers()
    ensures { DoRowsStand }
{}
