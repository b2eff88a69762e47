//! The laws of graphs that are entered.
ghost use Rattle.run_events.specs.Handing.{AreAllEnteredByModes, AreAllEnteredWith, AreLeftByMarks, AreOutputsFilled};
ghost use Rattle.run_events.specs.Iterated.{AreIterationsTold, DoIterationsLook};
ghost use Rattle.run_events.specs.Modes.{AreAllModesRight, AreCopiesCounted};
ghost use Rattle.run_events.specs.Placed.{AreAllGraphsPlaced};
ghost use Rattle.run_events.specs.Stages.{AreAllStagesTold, ArePartsTold};
ghost use Rattle.run_events.specs.There.{AreOperandsThere, IsAllThereKept};

/// The stage at which a node enters a graph tells which of its parts that is, and what its inputs are.
pub fn stages_are_told()
    ensures { AreAllStagesTold }
{}

/// So it does of the graphs that stand in a compound node.
pub fn parts_are_told()
    ensures { ArePartsTold }
{}

/// What a node takes, copies and lends goes by the marks: it takes along the edges that do, an input that the rules
/// say is owned has an aggregate of its own, and one that is gone nobody uses.
pub fn modes_go_by_marks()
    ensures { AreAllModesRight }
{}

/// A function or a part that is entered so is entered as the law on hands asks, and owns what the rules say.
pub fn graphs_are_entered_by_modes()
    ensures { AreAllEnteredByModes }
{}

/// A node that leaves a graph takes over what the law on hands asks: what it had, results along edges that take, inputs
/// that go on, and copies.
pub fn graphs_are_left_by_marks()
    ensures { AreLeftByMarks }
{}

/// The outputs of a node that is done, made by its firing or out of its hands, fill its ports as the law on hands asks.
pub fn outputs_fill_ports()
    ensures { AreOutputsFilled }
{}

/// What a ready node reads or takes is given and not taken, and so are the results of a graph whose nodes are done.
pub fn operands_are_there()
    ensures { AreOperandsThere }
{}

/// A port that was given something has it until its taker is claimed, after each event.
pub fn given_ports_stay_full()
    ensures { IsAllThereKept }
{}

/// An iteration of a ForAll has the operands of the node, and behind them the element of each multiple at its place.
pub fn iterations_are_told()
    ensures { AreIterationsTold }
{}

/// It owns none of these.
pub fn iterations_only_look()
    ensures { DoIterationsLook }
{}

/// So it is entered with what the laws of storage ask.
pub fn graphs_are_entered_with_these()
    ensures { AreAllEnteredWith }
{}

/// What a node copies by its modes is what its copies count.
pub fn copies_are_counted()
    ensures { AreCopiesCounted }
{}

/// The graphs that a node of a unit enters stand in the unit, as its functions do.
pub fn graphs_are_placed()
    ensures { AreAllGraphsPlaced }
{}
