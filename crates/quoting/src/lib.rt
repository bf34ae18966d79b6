// From a sheet's bytes to what is printed for it: the listing of the cheapest loop through its stops, or why there is none.
#![tactic(auto)]

mod faults;
mod loops;
mod quotes;

pub use faults::{Fault, Origin, Refusal};
pub use quotes::{MOST_READ, Outcome, PAGE, quote};
