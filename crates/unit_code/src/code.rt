//! The code of a unit.
use flow_value::Numbers;
use step_code::Code;

/// The code of a unit. The tables have a number for each graph.
#[derive(Drop)]
pub struct UnitCode {
    /// The steps of all functions.
    pub code: Code,
    /// At which place each function begins.
    pub entries: Numbers,
    /// How many cells its block has.
    pub rooms: Numbers,
}
