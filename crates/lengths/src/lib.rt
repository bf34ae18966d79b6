// Lengths and routes between two cells, over a borrowed source and a borrowed rate.
#![tactic(auto)]

mod answers;
mod asking;
mod drawing;
mod leaps;
mod measuring;

pub use answers::{Drawn, Measured, Refusal};
pub use asking::{Room, check};
pub use drawing::draw;
pub use leaps::Leaps;
pub use measuring::{measure, reach};
