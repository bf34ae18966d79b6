// Jump sources: what a planner asks of a floor, whatever memory holds it.
#![tactic(auto)]

mod drawing;
mod extents;
mod ground;
mod labelling;
mod lent;
mod memory;
mod sizes;
mod traits;

pub use drawing::open_all;
pub use extents::Size;
pub use ground::Ground;
pub use labelling::{DEAD, label, labels, read_label};
pub use memory::{Footprint, OnMemory};
pub use sizes::{SizeRefusal, size_check};
pub use traits::JumpSource;
