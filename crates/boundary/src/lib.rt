// The planner for C and C++: queries and replies in numbers, answered in batches over memory that the caller lends.
#![tactic(auto)]

mod batches;
mod exports;
mod numbers;

pub use batches::run;
pub use exports::{planner_on_bytes, planner_on_table, planner_on_words};
pub use numbers::{Query, Reply};
