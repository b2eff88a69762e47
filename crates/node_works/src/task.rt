//! What a node does.
use flow_value::Shape;
use if1_graph::Simple;
use plan_data::Work;

/// What a node does.
#[derive(Drop)]
pub enum Task {
    /// A simple node other than a Call: its row, and what the types on its edges tell.
    Plain(Simple, Shape),
    /// A Call or a compound node.
    Whole(Work),
}
