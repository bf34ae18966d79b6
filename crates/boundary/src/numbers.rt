// Queries and replies, laid out as C has them.
ghost use Rattle.std.specs.Prelude.{◌≡◌};
ghost use Rattle.boundary.specs.Numbers.{action_in, cell_in, target_in, refusal_reply, change_reply, length_reply};

use floor::Cell;
use lengths::{Measured, Refusal};

// What is asked: to close a cell (0), to open it (1), or for the length from it to a target (any other number).
// Kept: C has numbers for what is asked and for refusals.
#[repr(C)]
#[derive(Clone, Copy)]
pub struct Query {
    pub what: usize,
    pub row: usize,
    pub col: usize,
    pub target_row: usize,
    pub target_col: usize,
}

#[derive(Clone, Copy)]
pub enum Action {
    Close,
    Open,
    Measure,
}

// What is answered: the number of the refusal or 0, whether the cell changed, the counts of a cheapest route and how many places were finished.
// What does not apply is 0.
#[repr(C)]
#[derive(Clone, Copy)]
pub struct Reply {
    pub refusal: u32,
    pub changed: u32,
    pub straight: u32,
    pub diagonal: u32,
    pub finished: usize,
}

impl From<Query> for Action {
    ghost from_gives = { λ query action. action ≡ action_in query };

    fn from(query: Query) -> Action {
        match query.what {
            0 => Action::Close,
            1 => Action::Open,
            _ => Action::Measure,
        }
    }
}

impl Query {
    pub fn cell(self) -> Cell
        ensures { result ≡ cell_in self }
    {
        Cell {
            row: self.row,
            col: self.col,
        }
    }

    pub fn target(self) -> Cell
        ensures { result ≡ target_in self }
    {
        Cell {
            row: self.target_row,
            col: self.target_col,
        }
    }
}

impl Reply {
    const EMPTY: Reply = Reply {
        refusal: 0,
        changed: 0,
        straight: 0,
        diagonal: 0,
        finished: 0,
    };
}

impl From<Refusal> for Reply {
    ghost from_gives = { λ refusal reply. reply ≡ refusal_reply refusal };

    fn from(refusal: Refusal) -> Reply {
        Reply {
            refusal: u32::from(refusal.number()),
            ..Reply::EMPTY
        }
    }
}

// To an open or a close.
impl From<Result<bool, Refusal>> for Reply {
    ghost from_gives = { λ answer reply. reply ≡ change_reply answer };

    fn from(answer: Result<bool, Refusal>) -> Reply {
        match answer {
            Ok(changed) => Reply {
                changed: u32::from(changed),
                ..Reply::EMPTY
            },
            Err(refusal) => Reply::from(refusal),
        }
    }
}

// To a length.
impl From<Result<Measured, Refusal>> for Reply {
    ghost from_gives = { λ answer reply. reply ≡ length_reply answer };

    fn from(answer: Result<Measured, Refusal>) -> Reply {
        match answer {
            Ok(measured) => Reply {
                straight: measured.counts.straight,
                diagonal: measured.counts.diagonal,
                finished: measured.finished,
                ..Reply::EMPTY
            },
            Err(refusal) => Reply::from(refusal),
        }
    }
}
