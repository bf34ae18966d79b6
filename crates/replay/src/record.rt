//! The lists that a run is lent, owned, and what it recorded in them.
use crate::telling::Told;
use floor::{Cell, Counts};
use history::{Answer, Call, Rooms, Tape};
use lengths::Refusal;
use planner::{Entry, Waiter};
use std::alloc::{AllocError, Global};

// What stands in the answer list before a call is answered.
const UNANSWERED: Answer = Answer::Changed(Err(Refusal::Outside));

/// As long as suffices for the calls that it was made for.
#[derive(Drop)]
pub struct Record {
    entries: Vec<Entry>,
    waiting: Vec<Waiter>,
    corners: Vec<Cell>,
    legs: Vec<Counts>,
    answers: Vec<Answer>,
}

// What these calls need together: the work lists they share, and the others follow one another.
fn needed(calls: &[Call<'_>]) -> Rooms {
    let mut all = Rooms {
        entries: 0,
        waiting: 0,
        corners: 0,
        legs: 0,
    };
    for call in calls {
        all.entries = all.entries.max(call.rooms.entries);
        all.waiting = all.waiting.max(call.rooms.waiting);
        all.corners = all.corners.saturating_add(call.rooms.corners);
        all.legs = all.legs.saturating_add(call.rooms.legs);
    }
    all
}

impl Record {
    pub fn new(heap: Global, calls: &[Call<'_>]) -> Result<Record, AllocError> {
        let all = needed(calls);
        Ok(Record {
            entries: vec![in heap; Entry::BLANK; all.entries]?,
            waiting: vec![in heap; Waiter::BLANK; all.waiting]?,
            corners: vec![in heap; Cell { row: 0, col: 0 }; all.corners]?,
            legs: vec![in heap; Counts::NONE; all.legs]?,
            answers: vec![in heap; UNANSWERED; calls.len()]?,
        })
    }

    pub fn tape(&mut self) -> Tape<'_> {
        Tape {
            entries: self.entries.as_mut_slice(),
            waiting: self.waiting.as_mut_slice(),
            corners: self.corners.as_mut_slice(),
            legs: self.legs.as_mut_slice(),
            answers: self.answers.as_mut_slice(),
        }
    }

    /// The answers to the first calls, so many.
    pub fn answers(&self, count: usize) -> &[Answer] {
        self.answers.as_slice().get(..count).unwrap_or(&[])
    }

    /// What all calls wrote.
    pub fn written(&self) -> Written<'_> {
        Written {
            corners: self.corners.as_slice(),
            legs: self.legs.as_slice(),
        }
    }
}

/// What calls wrote that are still to be told: what the first of them wrote stands in front.
#[derive(Drop)]
pub struct Written<'a> {
    corners: &'a [Cell],
    legs: &'a [Counts],
}

impl<'a> Written<'a> {
    /// The next call's answer, with what it wrote. Made where it is told, since one for each call would take more room than the calls.
    pub fn told(&mut self, answer: &Answer) -> Told<'a> {
        Told {
            answer: *answer,
            corners: cut(&mut self.corners, answer.corners()),
            legs: cut(&mut self.legs, answer.legs()),
        }
    }
}

// Takes so many from the front, if there are as many.
fn cut<'a, T>(list: &mut &'a [T], count: usize) -> &'a [T] {
    let all = *list;
    let (front, rest) = all.split_at_checked(count).unwrap_or((&[], &[]));
    *list = rest;
    front
}
