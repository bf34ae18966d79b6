// What the search keeps of a place, in 16 bytes.
ghost use Rattle.std.specs.Prelude.{◌≡◌, ◌≤◌};
ghost use Rattle.floor.specs.Tally.{steps};
ghost use Rattle.search.specs.Chain.{most};
ghost use Rattle.search.specs.Mark.{mark, way, waiting_by, is_done};

use crate::graph::Position;
use floor::Counts;

// A place is not seen yet, waits with the cheapest counts so far, or is finished.
#[derive(Clone, Copy)]
pub enum State {
    Unseen,
    Waiting,
    Finished,
}

// How a place was reached: the counts of a chain to it, and the position that its last edge came from.
#[derive(Clone, Copy)]
pub struct Reached {
    pub counts: Counts,
    pub from: Position,
}

// Small, since each search clears one for each place.
// Kept: with a Position for where it was reached from, or the slot in State::Waiting, it has 20 bytes, and the instructions that clear entries grow by a quarter.
#[derive(Clone, Copy)]
pub struct Entry {
    straight: u16,
    diagonal: u16,
    // The place that it was reached from, unless that was the start.
    from: u32,
    // Where it stands in the waiting list, while it waits.
    pub(crate) slot: u32,
    pub(crate) state: State,
    // It was reached by an edge from the start.
    direct: bool,
}

impl Entry {
    // Of a place that is not seen yet.
    pub const BLANK: Entry = Entry {
        straight: 0,
        diagonal: 0,
        from: 0,
        slot: 0,
        state: State::Unseen,
        direct: false,
    };

    // Of a place that waits, reached so. Where it stands, the heap tells.
    pub(crate) fn waiting(new: Reached) -> Entry
        requires { steps new.counts ≤ most }
        ensures { result ≡ waiting_by new }
    {
        let (from, direct) = match new.from {
            Position::Start => (0, true),
            Position::Place(place) => (place, false),
        };
        Entry {
            straight: new.counts.straight as u16,
            diagonal: new.counts.diagonal as u16,
            from,
            slot: 0,
            state: State::Waiting,
            direct,
        }
    }

    // Whether its place is finished.
    pub fn is_finished(&self) -> bool
        ensures { result ≡ is_done (mark self.now) }
    {
        matches!(self.state, State::Finished)
    }

    pub fn reached(&self) -> Reached
        ensures { result ≡ way self.now }
    {
        let from = if self.direct {
            Position::Start
        } else {
            Position::Place(self.from)
        };
        let counts = Counts {
            straight: u32::from(self.straight),
            diagonal: u32::from(self.diagonal),
        };
        Reached { counts, from }
    }
}
