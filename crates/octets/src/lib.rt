// The byte source: a plan on lent bytes, one to a cell.
#![tactic(auto)]

mod drawn;
mod layout;
mod reaches;

pub use drawn::draw;
pub use layout::ByteSource;

#[cfg(test)]
mod tests;
