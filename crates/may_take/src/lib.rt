//! Which edges of a unit consume, which come from owned ports, and which may take.
#![tactic(auto)]

mod around;
mod consuming;
mod flags;
mod functions;
mod inner;
mod inputs;
mod looking;
mod node;
mod owned;
mod port_set;
mod units;
mod uses;

pub use around::Around;
pub use flags::Flags;
pub use functions::Functions;
pub use inner::consuming_edges;
pub use inputs::Inputs;
pub use port_set::PortSet;
pub use units::{candidates, owned_edges};
pub use uses::NodeUse;
