//! Laws of the definitions in `road_model`, in the subject's own words.
//!
//! Each law is the contract of a function that does nothing, so that a check proves it. They say that the
//! definitions speak of one answer, and they are what a reader checks the definitions against.
#![tactic(auto)]

mod answers;
mod paths;
mod worked;

pub use answers::{
    answer_is_one, least_local_failure_is_one, least_stretch_failure_is_one, numbers_are_one,
    verdict_is_one,
};
pub use paths::{
    dist_is_one, first_is_one, last_is_one, locally_optimal_is_shortest, parts_of_shortest,
    parts_of_walk, triangle, via_of_target, via_parts_are_shortest,
};
pub use worked::{
    changes_of_a, closed_subpaths_fail, distances_of_a, no_path_of_a,
    on_the_bound_is_tested_no_further, pages_of_two, the_answer_of_a,
    the_long_way_of_a_is_admissible, ties_go_by_arc_number, two_arcs_fail_without_their_ends,
    verdicts_of_a,
};
