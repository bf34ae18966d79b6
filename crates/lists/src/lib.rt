// The work lists that a planner is lent, owned: for callers that have memory of their own. The planner and what lies under it allocate nothing.
#![tactic(auto)]

ghost use Rattle.std.specs.Prelude.{◌≡◌, length, replicate, IfOk, vec_items};
ghost use Rattle.search.specs.Mark.{blank};
ghost use Rattle.search.specs.Queue.{blank_waiter};
ghost use Rattle.lists.specs.Lengths.{room_of};

use lengths::Room;
use search::entry::Entry;
use search::{Waiter, Work};
use std::alloc::{AllocError, Global};

#[cfg(test)]
mod tests;

// The entries of places, and those places that wait.
#[derive(Drop)]
pub struct Lists {
    entries: Vec<Entry>,
    waiting: Vec<Waiter>,
}

impl Lists {
    // Lists of these lengths, if there is memory for them. Neither holds anything of a search.
    pub fn new(heap: Global, room: Room) -> Result<Lists, AllocError>
        ensures room { IfOk result (λ lists. room_of lists ≡ room) }
        ensures blank { IfOk result (λ lists. vec_items lists.entries ≡ replicate room.entries blank) }
        ensures idle { IfOk result (λ lists. vec_items lists.waiting ≡ replicate room.waiting blank_waiter) }
    {
        Ok(Lists {
            entries: vec![in heap; Entry::BLANK; room.entries]?,
            waiting: vec![in heap; Waiter::BLANK; room.waiting]?,
        })
    }

    // The lists with what they hold, lent for a call.
    pub fn work(&mut self) -> Work<'_>
        ensures entries { result.entries.now ≡ vec_items self.old.entries }
        ensures waiting { result.waiting.now ≡ vec_items self.old.waiting }
        ensures places { length result.entries.now ≡ (room_of self.old).entries }
        ensures room { length result.waiting.now ≡ (room_of self.old).waiting }
    {
        Work {
            entries: self.entries.as_mut_slice(),
            waiting: self.waiting.as_mut_slice(),
        }
    }

    // What the entries hold of the last search.
    pub fn entries(&self) -> &[Entry]
        ensures { result.now ≡ vec_items self.now.entries }
    {
        self.entries.as_slice()
    }
}
