// The packed source: a plan on lent words of 64 bits, scanned a word at a time.
#![tactic(auto)]

mod copies;
mod drawn;
mod halves;
mod layout;
mod scans;
mod words;

pub use drawn::draw;
pub use halves::words_needed;
pub use layout::PackedSource;
