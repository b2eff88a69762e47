//! The laws of what nodes have in their hands.
ghost use Rattle.run_events.specs.Hands.{AreAllHandsKept, DoHandsBegin, AreUnownedNotLeased};

/// At the beginning of a run no node has anything in its hands.
pub fn hands_begin_empty()
    ensures { DoHandsBegin }
{}

/// Each aggregate has one place, in a port that owns it or in the hands of a node, after each event: a state changes, a
/// port is emptied, ports are filled, a graph is entered, with what was taken among its inputs, or one is left.
pub fn hands_are_kept()
    ensures { AreAllHandsKept }
{}

/// Of a key that no port owns no node has a lease.
pub fn unowned_keys_are_not_leased()
    ensures { AreUnownedNotLeased }
{}
