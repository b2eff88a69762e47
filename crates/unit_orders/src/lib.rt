//! Orders in which the nodes of each graph of a unit may fire one after another, by the numbers of the graphs.
#![tactic(auto)]

mod laws;
mod orders;

pub use if1_sound::Sound;
pub use laws::graphs_stand_by_their_numbers;
pub use mark_check::all_graphs;
pub use orders::firing_orders;
