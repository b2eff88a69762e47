//! What ranges of the iterations of a ForAll come to, each of them run by itself: one firing for each iteration, those
//! of its body, and collections with what the rows give. Laws without code.
#![tactic(auto)]

mod laws;

pub use laws::{
    collections_join, eaches_are_of_for_alls, eaches_take_above, quick_ranges_are_of_record,
    quick_ranges_begin, ranges_alone_are_decided, ranges_alone_begin, ranges_alone_stop,
    ranges_alone_that_agree_begin, ranges_are_cut, ranges_are_decided, ranges_are_of_record,
    ranges_go, ranges_of_code_are_of_record, ranges_of_code_begin, ranges_of_record_go,
    ranges_of_runs_begin, ranges_that_agree_are_of_record, ranges_that_agree_begin,
    ranges_that_stop_begin, unit_code_agrees, unit_eaches_are_of_for_alls,
    unit_ranges_are_of_record, unit_ranges_begin,
};
