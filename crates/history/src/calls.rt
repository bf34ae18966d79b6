//! A call of a planner and its answer as they are recorded, and what a run of calls is lent.
ghost use Rattle.std.specs.Prelude.{◌≡◌, ◌↔◌, IsTrue};
ghost use Rattle.history.specs.Records.{Fit, corners_written, legs_written};

use floor::{Cell, Counts};
use lengths::{Drawn, Measured, Refusal};
use planner::{Entry, LoopRefusal, Waiter};

/// What a call asks of a planner.
#[derive(Clone, Copy)]
pub enum Asks<'a> {
    Open(Cell),
    Close(Cell),
    Length { start: Cell, target: Cell },
    Route { start: Cell, target: Cell },
    /// The loop through these cells, the panel first.
    Loop(&'a [Cell]),
}

/// How much room the lists have that a call is lent: the length of each.
#[derive(Clone, Copy)]
pub struct Rooms {
    pub entries: usize,
    pub waiting: usize,
    pub corners: usize,
    pub legs: usize,
}

impl Rooms {
    /// Whether lists with this room can be cut from lists with that.
    pub fn fit(self, left: Rooms) -> bool
        ensures { IsTrue result ↔ Fit self left }
    {
        self.entries <= left.entries
            && self.waiting <= left.waiting
            && self.corners <= left.corners
            && self.legs <= left.legs
    }
}

/// A call of a run: what it asks, and how much room its lists have.
#[derive(Clone, Copy)]
pub struct Call<'a> {
    pub asks: Asks<'a>,
    pub rooms: Rooms,
}

/// What a call is answered. The corners or the counts of legs that it wrote stand in the list that it was lent.
#[derive(Clone, Copy)]
pub enum Answer {
    Changed(Result<bool, Refusal>),
    Length(Result<Measured, Refusal>),
    Route(Result<Drawn, Refusal>),
    /// With the number of legs that were measured.
    Loop {
        answer: Result<Counts, LoopRefusal>,
        legs: usize,
    },
}

impl Answer {
    /// How many corners the call wrote.
    pub fn corners(&self) -> usize
        ensures { result ≡ corners_written self.now }
    {
        match self {
            Answer::Route(answer) => answer.map_or(0, |drawn| drawn.corners),
            Answer::Changed(_) | Answer::Length(_) | Answer::Loop { .. } => 0,
        }
    }

    /// How many legs' counts the call wrote.
    pub fn legs(&self) -> usize
        ensures { result ≡ legs_written self.now }
    {
        match self {
            Answer::Loop { legs, .. } => *legs,
            Answer::Changed(_) | Answer::Length(_) | Answer::Route(_) => 0,
        }
    }
}

/// What a run is lent, and what it leaves. The lists may hold anything before.
#[derive(Drop)]
pub struct Tape<'a> {
    /// The work lists, of which each call is lent as much as it asks for, from the front.
    pub entries: &'a mut [Entry],
    pub waiting: &'a mut [Waiter],
    /// The corners of routes: what a call writes follows what the calls before it wrote.
    pub corners: &'a mut [Cell],
    /// The counts of the legs of loops, in the same way.
    pub legs: &'a mut [Counts],
    /// An answer for each call that was put.
    pub answers: &'a mut [Answer],
}
