//! The law of what the code of a unit counts.
ghost use Rattle.unit_counts.specs.Laws.{DoesToldCodeCount, DoesToldCodeWrite};

/// Code that is made of the plan of a ready unit, and fires its nodes as data tells that has this plan
/// and tells by the rows what is copied, counts the copies that the plan's weights count.
pub fn code_of_told_data_counts_copies()
    ensures { DoesToldCodeCount }
{}

/// And where the data tells by the rows what is written, it writes what the plan's weights count.
pub fn code_of_told_data_counts_writes()
    ensures { DoesToldCodeWrite }
{}
