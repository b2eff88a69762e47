//! The laws of firing orders.
ghost use Rattle.firing_order.specs.Laws.{AreFiringOrdersInOrder, HaveUnitsFiringOrders};

/// The nodes of a graph of a ready unit with sound marks stand in order, where their places do.
pub fn firing_orders_are_in_order()
    ensures { AreFiringOrdersInOrder }
{}

/// So do those of all its graphs.
pub fn units_have_firing_orders()
    ensures { HaveUnitsFiringOrders }
{}
