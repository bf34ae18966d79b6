// What an estimator sees: counts as millimetres, and the legs of a loop as lines.
#![tactic(auto)]

pub mod lines;
pub mod millimetres;
