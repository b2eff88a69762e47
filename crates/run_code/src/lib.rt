//! Code of graphs: the steps of a machine that goes through the nodes of a graph in one order, and which
//! of them do which part of which graph. Definitions, and laws of what a returns collects; no code.
#![tactic(auto)]

mod laws;

pub use laws::{
    clauses_stand_for_collections, collections_are_of_columns, copies_are_what_is_put,
    nodes_give_the_same_on_collections,
};
