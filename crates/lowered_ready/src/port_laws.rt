//! The laws.
ghost use Rattle.lowered_ready.specs.PortLaws.{DoPortsHold};

use crate::types_are_read_back;

/// The ports of the unit of a fitting program are filled as the table of nodes says, by edges from ports
/// that are there, where the lowered graphs of the program obey the rules.
pub fn ports_hold_where_rules_do()
    ensures { DoPortsHold }
{
    types_are_read_back();
}
