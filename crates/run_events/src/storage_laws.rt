//! The laws of what live graphs keep in their ports.
ghost use Rattle.run_events.specs.Carrying.{AreAllPortsKept, AreAllToldCarried, AreContentsTold};
ghost use Rattle.run_events.specs.Lending.{AreAllOperandsFirst, AreInputsLent, AreAllArmsLent};
ghost use Rattle.run_events.specs.Marked.{AreTakersAlone, DoTakersLeaseNothing, AreEmptiedUnowned, AreInputsMarked};
ghost use Rattle.run_events.specs.Owning.{AreAllTakenOwned};
ghost use Rattle.run_events.specs.Scattering.{IsNoneScattered, AreAllScattersKept};

/// What each filled port holds is what it carries by the definition of record, at the beginning and after each
/// event.
pub fn filled_ports_carry()
    ensures { AreAllPortsKept }
{}

/// So what a node of a live graph reads off filled ports are its operands, and what its outputs fill is what these
/// ports carry.
pub fn told_operands_are_carried()
    ensures { AreAllToldCarried }
{}

/// In a live graph of a ready unit with sound marks, where the taker of a port is ready or was claimed, nobody is
/// at work on the port.
pub fn takers_are_alone()
    ensures { AreTakersAlone }
{}

/// What a port had that was emptied is owned by no port.
pub fn emptied_keys_are_unowned()
    ensures { AreEmptiedUnowned }
{}

/// The inputs of an entered graph, each owned by itself or lent along an edge that does not take, are such as the
/// law on entering asks.
pub fn inputs_are_marked()
    ensures { AreInputsMarked }
{}

/// Each graph and each iteration that a node enters has the node's operands as its first inputs, and an arm the
/// content of the union in the place of the union.
pub fn operands_are_first()
    ensures { AreAllOperandsFirst }
{}

/// So along each path the source of an operand carries what the input at its place does: it is the port that lends
/// the input, where that is lent.
pub fn inputs_are_lent_by_operands()
    ensures { AreInputsLent }
{}

/// Where an edge takes from an owned port on which nobody in its graph is at work, no finished AScatter keeps a lease
/// of what the port has.
pub fn no_scattered_lease_is_out()
    ensures { IsNoneScattered }
{}

/// These leases are kept where a state changes and its node is still at work, where a port is filled, and where a
/// graph is left.
pub fn scattered_leases_are_kept()
    ensures { AreAllScattersKept }
{}

/// The port that a taker takes owns what it has, and no lease of that is out in any live graph.
pub fn takers_lease_nothing()
    ensures { DoTakersLeaseNothing }
{}

/// What a node takes the function that it calls owns, and each of its parts that uses it, but for a selector.
pub fn taken_inputs_are_owned()
    ensures { AreAllTakenOwned }
{}

/// What is told of a union is told of its content, where one union more is opened.
pub fn contents_are_told()
    ensures { AreContentsTold }
{}

/// The first input of an arm carries the content of what the source of the union does, and each further one what the
/// source of the operand at its place does.
pub fn arms_are_lent_by_operands()
    ensures { AreAllArmsLent }
{}
