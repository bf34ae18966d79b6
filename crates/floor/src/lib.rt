// The words of the subject: cells, headings, sides and the counts of a route.
#![tactic(auto)]

mod facts;
mod headings;
mod shifts;
mod sums;

pub use facts::{every_jump_has_one_answer, marks_one_cell, routes_bend_at_runs, routes_keep};
pub use headings::NoHeading;
pub use shifts::Shift;

// A cell of a plan, by row and column from 0 at the top left. Any two numbers name a cell, inside the plan or not.
#[derive(Clone, Copy, PartialEq, Eq, Debug)]
pub struct Cell {
    pub row: usize,
    pub col: usize,
}

// How many straight and how many diagonal steps a route has.
#[derive(Clone, Copy, PartialEq, Eq, Debug)]
pub struct Counts {
    pub straight: u32,
    pub diagonal: u32,
}

// The eight headings, clockwise from north. Those at even places are straight, the others diagonal.
#[derive(Clone, Copy, PartialEq, Eq, Debug)]
pub enum Heading {
    North,
    NorthEast,
    East,
    SouthEast,
    South,
    SouthWest,
    West,
    NorthWest,
}

// A side of a heading.
#[derive(Clone, Copy, PartialEq, Eq, Debug)]
pub enum Side {
    Left,
    Right,
}
