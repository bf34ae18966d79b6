// The table source: a plan with all its jumps worked out beforehand, on lent numbers, and mended at each mark.
#![tactic(auto)]

mod drawn;
mod facts;
mod layout;
mod mending;
mod reading;

pub use drawn::draw;
pub use facts::equations_define_the_table;
pub use layout::TableSource;
