//! The laws of a graph's meaning, of its cost, and of its histories.
ghost use Rattle.graph_meaning.specs.Laws.{AreValuesStable, AreCostsStable, DoTreesGrow, IsCostTheSum, IsCostOfAnyCut, IsMeantWhereCosted, AreExecutionsConfluent, AreExecutionsNeverStuck, AreRunsConfluent, AreRunsNeverStuck, AreUnitsOrderly, HaveUnitsOneEnd, AreOrdersRightWithoutLists, AreFoundByNumber, AreOutputsCounted, IsLeastPortGiven, AreDepthsOfOneMeaning, AreCarriedOnce, IsMeaningOne, AreDepthsOfOneCost, IsMeaningStable, IsPlainCostStable, IsSumStable, IsNothingCalledAtZero, AreSumsDefined, AreCopiesDefined, IsSumOne, IsCostOne, AreUsersFinished, AreUnitCopiesDefined, AreUnitCopiesOne, AreUnmarkedCopied, HaveSoundUnitsOneEnd, AreTakersLast};

/// The results of a graph that one depth gives are given at every greater one.
pub fn values_are_stable()
    ensures { AreValuesStable }
{}

/// The cost that one depth gives is given at every greater one.
pub fn costs_are_stable()
    ensures { AreCostsStable }
{}

/// The tree of entered graphs at a greater depth shows what that of a smaller one shows.
pub fn trees_grow()
    ensures { DoTreesGrow }
{}

/// The cost is the sum of the firings of all items of the tree.
pub fn the_cost_is_the_sum()
    ensures { IsCostTheSum }
{}

/// The cost is the same however iterations are cut into slices.
pub fn the_cost_is_of_any_cut()
    ensures { IsCostOfAnyCut }
{}

/// In graphs without a cycle, where the cost is defined the results are given.
pub fn values_are_given_where_the_cost_is()
    ensures { IsMeantWhereCosted }
{}

/// Every legal complete history of an execution ends alike, unless memory is wanting.
pub fn executions_are_confluent()
    ensures { AreExecutionsConfluent }
{}

/// While an execution has not ended and nothing claimed is unfinished, some item can be claimed.
pub fn executions_are_never_stuck()
    ensures { AreExecutionsNeverStuck }
{}

/// The run of a graph without a cycle ends alike in each order of its firings.
pub fn runs_are_confluent()
    ensures { AreRunsConfluent }
{}

/// The run of a graph without a cycle is never stuck.
pub fn runs_are_never_stuck()
    ensures { AreRunsNeverStuck }
{}

/// The graphs of a ready unit whose ordering lists close no cycle have no cycle.
pub fn ready_units_are_orderly()
    ensures { AreUnitsOrderly }
{}

/// The run of each graph of such a unit ends alike in each order of its firings, and is never stuck.
pub fn ready_units_have_one_end()
    ensures { HaveUnitsOneEnd }
{}

/// In a ready unit without ordering lists the order of nodes is right.
pub fn orders_are_right_without_lists()
    ensures { AreOrdersRightWithoutLists }
{}

/// In a formed unit the graph of a number is the graph that has it.
pub fn graphs_are_found_by_number()
    ensures { AreFoundByNumber }
{}

/// A simple node other than a call has as many outputs as its row of the table says.
pub fn outputs_are_counted()
    ensures { AreOutputsCounted }
{}

/// Every output of a simple node is the error of its least strict port that carries one.
pub fn the_error_of_the_least_port_is_given()
    ensures { IsLeastPortGiven }
{}

/// Some depth of calls and turns gives the results of a graph exactly where some depth of steps does.
pub fn depths_have_one_meaning()
    ensures { AreDepthsOfOneMeaning }
{}

/// What is carried by any list of ports is one, whatever depths of calls and turns give it.
pub fn what_ports_carry_is_one()
    ensures { AreCarriedOnce }
{}

/// No two depths of calls and turns give different results.
pub fn the_meaning_is_one()
    ensures { IsMeaningOne }
{}

/// Some depth of calls and turns gives the cost of a graph exactly where some depth of steps does.
pub fn depths_have_one_cost()
    ensures { AreDepthsOfOneCost }
{}

/// What a depth of calls and turns gives, every greater one gives.
pub fn the_meaning_is_stable()
    ensures { IsMeaningStable }
{}

/// At depth 0 no node enters a called graph or a turn.
pub fn nothing_is_called_at_depth_zero()
    ensures { IsNothingCalledAtZero }
{}

/// In graphs without a cycle, where the cost is defined each sum by its recursion is.
pub fn sums_are_defined_where_the_cost_is()
    ensures { AreSumsDefined }
{}

/// In graphs without a cycle, where the cost is defined copies and writes are.
pub fn copies_are_defined_where_the_cost_is()
    ensures { AreCopiesDefined }
{}

/// No two depths give different sums.
pub fn the_sum_is_one()
    ensures { IsSumOne }
{}

/// No two depths of calls and turns give different costs.
pub fn the_cost_is_one()
    ensures { IsCostOne }
{}

/// The cost that a depth of calls and turns gives, every greater one gives.
pub fn the_plain_cost_is_stable()
    ensures { IsPlainCostStable }
{}

/// So is it with each sum by the recursion of the cost.
pub fn the_sum_is_stable()
    ensures { IsSumStable }
{}

/// Where a node may be claimed, every node for which it waits has finished.
pub fn users_are_finished_before_a_taker()
    ensures { AreUsersFinished }
{}

/// In a ready unit with sound marks, where the cost of a graph is defined its copies and writes are.
pub fn copies_of_units_are_defined()
    ensures { AreUnitCopiesDefined }
{}

/// The copies of a graph of a unit are one number, and so are its writes.
pub fn copies_of_units_are_one()
    ensures { AreUnitCopiesOne }
{}

/// What is copied goes along the consuming edges that do not take.
pub fn unmarked_consuming_edges_are_copied()
    ensures { AreUnmarkedCopied }
{}

/// The run of each graph of a ready unit with sound marks ends alike in each order of its firings, and
/// is never stuck.
pub fn sound_units_have_one_end()
    ensures { HaveSoundUnitsOneEnd }
{}

/// Where the taker of a port may be claimed, all other users of the port have finished.
pub fn other_users_are_finished_before_the_taker()
    ensures { AreTakersLast }
{}
