//! What loops make in the source and in graphs: the places of generators and their multiples, the
//! rows of clauses and their columns, masks, lengths that differ, the turns of a loop; and what the
//! compound node of a loop means, by what its parts mean, both ways (SISAL Language Reference Manual
//! 1.2, loops; IF1 manual M-170, ForAll, LoopA, LoopB). Definitions and laws, no code.
#![tactic(auto)]

mod laws;

pub use laws::{
    arrays_begin_at_their_lower_bounds, clauses_are_collected_at_their_places,
    clauses_fold_columns, for_alls_fire_where_the_source_gives,
    for_alls_give_what_the_source_gives, generators_go_through_places,
    loops_fire_where_the_source_gives, loops_give_what_the_source_gives, nodes_fold_multiples,
    tests_say_what_the_source_goes_by,
};
