//! The laws of tables of live graphs.
ghost use Rattle.run_states.specs.Events.{IsClaimKept, AreAllFinishesKept, IsClosingKept, IsBusyKept};
ghost use Rattle.run_states.specs.Graphs.{AreAllGraphsKept, IsEnteredNew};
ghost use Rattle.run_states.specs.Laws.{IsReadyExact, DoRunsBegin, AreAllClaimsLegal, AreFinishesLegal, AreEndsSeen, AreNodesOfRuns, AreAllStepsOfRuns, DoEnteredStand, AreSlicesCosted, DoAllPacesFall, AreAllValuesRead, IsNoLeaseOut};
ghost use Rattle.run_states.specs.Leasing.{AreNoneLeased, AreLeasesMoved, AreLeasesKept, AreAllIdleNotLeased};
ghost use Rattle.run_states.specs.Moving.{DoStoresBegin, AreStoresKept, IsFillingKept, IsTakingKept, IsEnteringKept};
ghost use Rattle.run_states.specs.Paths.{AreAllPathsExact};
ghost use Rattle.run_states.specs.Sliced.{AreSlicesCuts};
ghost use Rattle.run_states.specs.Takers.{AreUsersFinishedInside, AreTakersLastInside};
ghost use Rattle.run_states.specs.Waiting.{AreUsersDone};

/// The items that a table has as ready are exactly those that can be claimed.
pub fn ready_items_are_claimable()
    ensures { IsReadyExact }
{}

/// A run begins with one live graph, which stands for the empty history.
pub fn runs_begin()
    ensures { DoRunsBegin }
{}

/// The claim of a ready item, idling where nothing is ready, and the end at the limit are entries of legal
/// histories.
pub fn claims_are_legal()
    ensures { AreAllClaimsLegal }
{}

/// So is the finish of a claimed item, whatever its work gave.
pub fn finishes_are_legal()
    ensures { AreFinishesLegal }
{}

/// After a finish the run has ended with results where all nodes of its first graph are done, and goes on
/// where one is not.
pub fn ends_are_seen()
    ensures { AreEndsSeen }
{}

/// After a claim the table with one state changed stands for what was claimed and made.
pub fn claims_are_kept()
    ensures { IsClaimKept }
{}

/// So it is after each kind of finish: of a node, of one that enters its first graph, of a further entry, of
/// a slice, of a leaving.
pub fn finishes_are_kept()
    ensures { AreAllFinishesKept }
{}

/// Where all nodes of an entered graph are done, it leaves the table, and the node above goes on.
pub fn left_graphs_are_closed()
    ensures { IsClosingKept }
{}

/// After each of these, no live graph but the first is done, where the changed and the added one are not.
pub fn busy_graphs_stay_busy()
    ensures { IsBusyKept }
{}

/// In each live graph, all nodes for which a ready or claimed node waits, itself or by others, are done.
pub fn users_are_done()
    ensures { AreUsersDone }
{}

/// A node of a graph is one of its run, and a simple one has one item.
pub fn nodes_are_of_the_run()
    ensures { AreNodesOfRuns }
{}

/// What a compound node does by the table of forms is what the trees of a run have.
pub fn steps_are_of_the_run()
    ensures { AreAllStepsOfRuns }
{}

/// A graph stands in a table as it is entered.
pub fn entered_graphs_stand()
    ensures { DoEnteredStand }
{}

/// The live graphs of a table are those of a network, each on its inputs, at the beginning and after each
/// event.
pub fn live_graphs_are_of_their_paths()
    ensures { AreAllGraphsKept }
{}

/// The graph that a node enters is a new one of the table.
pub fn entered_graphs_are_new()
    ensures { IsEnteredNew }
{}

/// A path leads to one graph with one list of inputs, and the items there, their order and their firings are
/// those of that graph's own run.
pub fn paths_are_exact()
    ensures { AreAllPathsExact }
{}

/// The slices for each number of workers are cuts, so all laws of every cut hold of them.
pub fn slices_are_cuts()
    ensures { AreSlicesCuts }
{}

/// A slice has as many firings of its own as its iterations cost by the definition of record.
pub fn slices_cost_their_iterations()
    ensures { AreSlicesCosted }
{}

/// With each step of a node fewer items that count no firing are to come.
pub fn paces_fall()
    ensures { DoAllPacesFall }
{}

/// What is read off filled ports are operands, outputs and results by the meaning.
pub fn values_are_read()
    ensures { AreAllValuesRead }
{}

/// Where nobody in the graph of an owned port is at work on it, no lease of its aggregate is out anywhere.
pub fn no_lease_is_out()
    ensures { IsNoLeaseOut }
{}

/// A run begins with one graph whose inputs are owned.
pub fn stores_begin()
    ensures { DoStoresBegin }
{}

/// Where a state changes and no graph is entered, or one is left, aggregates are kept as they were.
pub fn stores_are_kept()
    ensures { AreStoresKept }
{}

/// So it is where an empty port is filled, by a value or an aggregate that no port owned,
pub fn filled_ports_are_kept()
    ensures { IsFillingKept }
{}

/// where a port is emptied on which nobody is at work,
pub fn taken_ports_are_emptied()
    ensures { IsTakingKept }
{}

/// and where a graph is entered on inputs that are owned, or lent by ports that the node above reads.
pub fn entered_stores_are_kept()
    ensures { IsEnteringKept }
{}

/// The leases of an aggregate, as one sum over the live graphs, are none where nobody in the graph of the port
/// that owns it is at work on it.
pub fn leases_add_up_to_none()
    ensures { AreNoneLeased }
{}

/// Where one node's state changes, the sum changes by the leases of that node,
pub fn leases_change_by_one_node()
    ensures { AreLeasesMoved }
{}

/// and it stays where a port is filled or emptied on which nobody is at work,
pub fn other_ports_lease_the_same()
    ensures { AreLeasesKept }
{}

/// and where a graph is added or left of which no node is at work.
pub fn idle_graphs_lease_nothing()
    ensures { AreAllIdleNotLeased }
{}

/// In each graph that a run enters, where a node may be claimed, every node for which it waits has finished.
pub fn users_are_finished_in_entered_graphs()
    ensures { AreUsersFinishedInside }
{}

/// So it is with the taker of a port and its other users, in each graph that a ready unit with sound marks
/// enters.
pub fn takers_are_last_in_entered_graphs()
    ensures { AreTakersLastInside }
{}
