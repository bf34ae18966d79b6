// Of all legal routes it is enough to follow chains of successors: the theorems, and the successors as code.
#![tactic(auto)]

mod facts;
mod goings;
mod successors;

pub use facts::{
    every_chain_is_a_route, no_cheaper_run_is_lost, the_cheapest_chain_is_a_cheapest_route,
};
pub use goings::{goings_from_place, goings_from_start};
pub use successors::{Leap, successor};
