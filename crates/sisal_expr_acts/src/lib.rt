//! What each production of expressions makes of the values of its symbols.
#![tactic(auto)]

mod cases;
mod compounds;
mod exprs;
mod folds;
mod selectors;

pub use cases::{CaseAct, perform_case};
pub use compounds::{CompoundAct, perform_compound};
pub use exprs::{ExprAct, perform_expr};
pub use selectors::{SelectorAct, perform_selector};
