//! The state of the machine.
use crate::calls::Calls;
use run_cells::Cell;

/// Where the machine stands.
#[derive(Drop)]
pub struct Machine {
    /// The place of the next step.
    pub pc: usize,
    /// The first cell of the block that runs.
    pub base: usize,
    /// The cells of all blocks.
    pub cells: Vec<Cell>,
    /// The open calls, the newest last.
    pub calls: Calls,
    /// The firings so far.
    pub fires: u64,
    /// The leaves that were copied so far, or the greatest number.
    pub copies: u64,
    /// The results, once it has ended.
    pub results: Vec<Cell>,
}

/// What a step leads to.
#[derive(Clone, Copy)]
pub enum Turn {
    /// The machine goes on.
    Goes,
    /// It has ended.
    Ends,
    /// One more firing would be beyond the limit.
    Over,
}
