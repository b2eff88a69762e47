//! The laws of whole units.
ghost use Rattle.unit_laws.specs.Laws.{AreAlikeMeant, AreAlikeCosted, ArePortsTyped, AreNodesTyped, AreResultsTyped, AreOperandsFit, AreGraphsKept, ArePortsKept, AreEnteredTyped};

/// Units that differ in marks alone mean the same.
pub fn alike_units_mean_the_same()
    ensures { AreAlikeMeant }
{}

/// Units that differ in marks alone cost the same.
pub fn alike_units_cost_the_same()
    ensures { AreAlikeCosted }
{}

/// In a graph of a ready unit, on inputs of its types, what a port carries belongs to the type of the edge
/// into it.
pub fn what_ports_carry_is_of_their_types()
    ensures { ArePortsTyped }
{}

/// There each node, a compound one and a Call too, has as many outputs as it is to have, each of the type of
/// the edges that leave it.
pub fn outputs_of_nodes_are_of_their_types()
    ensures { AreNodesTyped }
{}

/// There the graph has as many results as it is to have, each of its type.
pub fn results_of_graphs_are_of_their_types()
    ensures { AreResultsTyped }
{}

/// There what is carried into a simple node fits its row, and so the error of the least strict port that
/// carries one is every output.
pub fn operands_of_simple_nodes_fit()
    ensures { AreOperandsFit }
{}

/// Graphs that are added change nothing of what others mean and cost, if those enter none of them.
pub fn added_graphs_change_nothing()
    ensures { AreGraphsKept }
{}

/// Nodes that are added to a graph change nothing of what its ports carried.
pub fn added_nodes_change_nothing()
    ensures { ArePortsKept }
{}

/// In a ready unit, on inputs of its types, each graph that a run enters is one of the unit, on inputs of
/// its types.
pub fn graphs_are_entered_on_inputs_of_their_types()
    ensures { AreEnteredTyped }
{}
