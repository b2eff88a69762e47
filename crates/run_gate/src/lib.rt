//! Calls around the items of a run: a node, the entry of a compound node, a call or a part, a turn, a
//! slice of a ForAll, and a leaving.
#![tactic(auto)]

/// Is called around each item of a run, by the worker that does it, whose number begins at 0. What it
/// does changes no answer.
pub trait Gate: Sync {
    /// Whether there is anything to call. A run with a gate that says no does not look for items.
    const CALLED: bool = true;

    /// An item begins.
    fn before(&self, worker: u32);

    /// The item that this worker began is done. It is not called where the item was refused memory,
    /// which ends the run.
    fn after(&self, worker: u32);
}

/// A gate that does nothing.
#[derive(Clone, Copy, Debug)]
pub struct OpenGate;

impl Gate for OpenGate {
    const CALLED: bool = false;

    #[inline(always)]
    fn before(&self, worker: u32) {
        let _ = worker;
    }

    #[inline(always)]
    fn after(&self, worker: u32) {
        let _ = worker;
    }
}
