//! The laws of the ordered meaning.
ghost use Rattle.ordered_meaning.specs.Laws.{AreSumsOfRecord, IsOrderedMeaningOfRecord, AreOrdersAlike, HaveUnitsOrders, AreUnitsInOrder};
ghost use Rattle.ordered_meaning.specs.Taking.{IsTakenLast, AreUnitTakersLast};

/// In graphs without a cycle, the ordered meaning gives results with a cost, copies and writes exactly
/// where some depth of the definition of record does, and where a cost is defined the rest is.
pub fn the_ordered_meaning_is_of_record()
    ensures { IsOrderedMeaningOfRecord }
{}

/// So it is with every sum of numbers over the firings.
pub fn sums_in_order_are_of_record()
    ensures { AreSumsOfRecord }
{}

/// Each two orders along data edges and ordering lists give the same.
pub fn orders_are_alike()
    ensures { AreOrdersAlike }
{}

/// The graphs of a ready unit with sound marks have orders along data edges and ordering lists.
pub fn units_have_orders()
    ensures { HaveUnitsOrders }
{}

/// In every such order the ordered meaning of each graph of the unit is that of the definition of
/// record, with its cost, copies and writes.
pub fn units_mean_the_same_in_order()
    ensures { AreUnitsInOrder }
{}

/// In an order along data edges and ordering lists no port is read after its taker.
pub fn takers_are_last_in_order()
    ensures { IsTakenLast }
{}

/// So it is in each graph of a ready unit with sound marks.
pub fn takers_of_units_are_last()
    ensures { AreUnitTakersLast }
{}
