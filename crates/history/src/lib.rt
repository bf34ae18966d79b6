//! What holds of every list of calls: the promise over whole runs.
#![tactic(auto)]

mod calls;
mod laws;
mod runs;
mod steps;

pub use calls::{Answer, Asks, Call, Rooms, Tape};
pub use laws::runs_keep_their_promises;
pub use runs::{replay, replay_both, replay_fresh};
pub use steps::answer;
