//! The laws of all leases of an aggregate.
ghost use Rattle.run_events.specs.Few.{AreLeasesFew};
ghost use Rattle.run_events.specs.Leases.{IsNothingOut, AreLeasesOfNodes, AreAllSlicesCounted, DoIdleNodesLeaseNothing, AreLeasesSame};
ghost use Rattle.run_events.specs.Scattered.{DoScattersKeep, AreAllScattersKeptOn, AreTakersFree};
ghost use Rattle.run_events.specs.Sums.{IsSumMoved, AreAllSumsKept};

/// Where an edge takes from an owned port on which nobody in its graph is at work, no lease of what it has is out: of no
/// node, no slice and no AScatter.
pub fn no_lease_is_out_of_what_is_taken()
    ensures { IsNothingOut }
{}

/// Where one node changes, the sum changes by the leases of that node.
pub fn sums_change_by_one_node()
    ensures { IsSumMoved }
{}

/// It stays where what is counted does, and where a graph is added or left of which nothing is counted.
pub fn sums_are_kept()
    ensures { AreAllSumsKept }
{}

/// With the claim of a slice one more is out, and with its finish one less.
pub fn slices_are_counted()
    ensures { AreAllSlicesCounted }
{}

/// Without slices that are out and leases that AScatters keep, the sum is that of nodes at work.
pub fn leases_are_of_nodes()
    ensures { AreLeasesOfNodes }
{}

/// The lease of an AScatter may be kept until its ForAll leaves, where its port is lent or no edge takes from it.
pub fn scatters_keep_their_leases()
    ensures { DoScattersKeep }
{}

/// It may be kept on where a port is emptied by its taker, and where a graph is added.
pub fn kept_leases_stay()
    ensures { AreAllScattersKeptOn }
{}

/// Where the taker of a port is ready or was claimed, the port owns what it has, and no lease of that is out at all.
pub fn takers_find_no_lease()
    ensures { AreTakersFree }
{}

/// No more leases of an aggregate are out than so many for each claim, where a node at work has so many at most.
pub fn leases_are_few()
    ensures { AreLeasesFew }
{}

/// A node that is not at work has no lease.
pub fn idle_nodes_lease_nothing()
    ensures { DoIdleNodesLeaseNothing }
{}

/// Where ports are filled or emptied that no node at work reads, all leases stay.
pub fn unread_ports_lease_the_same()
    ensures { AreLeasesSame }
{}
