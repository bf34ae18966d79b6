// The planner: what an office asks of a floor, and what it is answered.
#![tactic(auto)]

mod answers;
mod drawing;
mod marking;
mod measuring;
mod touring;

pub use answers::LoopRefusal;
pub use marking::Planner;

// The lists that a call works in, and what they hold, so that an office needs to know no crate below this one.
pub use search::entry::Entry;
pub use search::{Waiter, Work};
