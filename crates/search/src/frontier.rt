// The places that a search has reached: the entries of all, and those that wait, in the order in which they are to be finished.
ghost use Rattle.std.specs.Prelude.{◌≡◌, ℕ, ◌+◌, ◌<◌, true, false, MatchOption, length, ◌≢◌};
ghost use Rattle.search.specs.Mark.{Unmet, Waits, Done, marks, key, how, is_waiting, finished, Becomes};
ghost use Rattle.search.specs.Search.{NoDearer, Noted};
ghost use Rattle.search.specs.Queue.{sooner, Known, Stands, Kept, waiters_lawful, First};
ghost use Rattle.search.specs.Answer.{Answered};
ghost use Rattle.search.specs.Frontier.{Queued, Standing, Offered, SameFrontier};

use crate::entry::{Entry, Reached, State};
use crate::graph::{Graph, MOST_STEPS, Position};
use crate::{Found, Waiter};
use floor::Counts;
use rate::{Comparison, Rate};
use waiting::{Order, Waiting};

// The order of the places that wait, at equal cost the lower number first, and the index of where they stand, which their entries hold.
#[derive(Drop)]
struct ByCost<'a, R> {
    entries: &'a mut [Entry],
    rate: &'a R,
}

impl<'a, R: Rate> Order<Waiter> for ByCost<'a, R> {
    ghost before = { λ s. sooner (R.Rate.order s.rate.now) };

    ghost knows = { λ s. Known s.entries.now };

    ghost stands = { λ s. Stands s.entries.now };

    ghost apart = { λ a b. a.place ≢ b.place };

    ghost same = { Kept (λ o. R.Rate.order o.rate.now) (λ o. o.entries.now) (λ o. o.entries.ghost_name) };

    ghost lawful = { waiters_lawful (λ o. R.Rate.order o.rate.now) (λ o. R.Rate.lawful o.rate.now) (λ o. o.entries.now) (λ o. o.entries.ghost_name) };

    // Kept: no match and no `||`, which would branch by what nobody can foresee, at each row of the heap.
    fn goes_before(&self, a: &Waiter, b: &Waiter) -> bool {
        let cost = self.rate.compare(a.key(), b.key());
        (cost == Comparison::Cheaper) | ((cost == Comparison::Same) & (a.place < b.place))
    }

    fn placed(&mut self, item: &Waiter, slot: usize) {
        self.entries[item.place as usize].slot = slot as u32;
    }
}

// The entries of all places, and those places that wait.
// Kept: the queue is no invariant of the type; it is wrong between the write of an entry and the move in the heap that follows.
// Kept: with the waiting list itself in place of a borrow, what the entries are when this struct is let go is not proved; it is no faster.
// Kept: the order is made anew at each move in the heap: within this struct it would hold the entries, and what they are when both are let go is not proved.
// Kept: the graph stands beside this struct, not in it, and with it that there are as many entries as places: within, searches took 0.1 to 0.9 % more instructions when it was tried.
#[derive(Drop)]
pub(crate) struct Frontier<'a, 'b, R> {
    pub(crate) entries: &'a mut [Entry],
    pub(crate) rate: &'a R,
    pub(crate) places: &'a mut Waiting<'b, Waiter>,
}

impl<'a, 'b, R: Rate> Frontier<'a, 'b, R> {
    // Lets a place wait that does not.
    fn add(&mut self, place: u32, new: Reached)
        requires within { Offered self.old place new }
        requires queued { Queued R.Rate.order self.old }
        requires idle { is_waiting (marks self.old.entries.now place) ≡ false }
        ensures queued { Queued R.Rate.order self.new }
        ensures new { Becomes (marks self.old.entries.now) (marks self.new.entries.now) place (Waits new) }
        ensures same { SameFrontier self.old self.new }
    {
        self.entries[place as usize] = Entry::waiting(new);
        let order = &mut ByCost {
            entries: &mut *self.entries,
            rate: self.rate,
        };
        self.places.put(Waiter::of(place, new.counts), order);
    }

    // Makes a place cheaper that waits. Seldom asked for, and not inlined, so that `note` stays short: searches take up to 1 % fewer instructions.
    #[inline(never)]
    fn improve(&mut self, place: u32, new: Reached)
        requires within { Offered self.old place new }
        requires queued { Queued R.Rate.order self.old }
        requires waits { is_waiting (marks self.old.entries.now place) ≡ true }
        requires better { NoDearer (R.Rate.order self.old.rate.now) new.counts (key (marks self.old.entries.now place)) }
        ensures queued { Queued R.Rate.order self.new }
        ensures new { Becomes (marks self.old.entries.now) (marks self.new.entries.now) place (Waits new) }
        ensures same { SameFrontier self.old self.new }
    {
        let slot = self.entries[place as usize].slot;
        self.entries[place as usize] = Entry::waiting(new);
        let order = &mut ByCost {
            entries: &mut *self.entries,
            rate: self.rate,
        };
        self.places
            .raise(slot as usize, Waiter::of(place, new.counts), order);
    }

    // Finishes the first of the places that wait, if any does.
    pub(crate) fn finish_first(&mut self) -> Option<u32>
        requires queued { Queued R.Rate.order self.old }
        ensures first { MatchOption result ((k : ℕ) → is_waiting (marks self.old.entries.now k) ≡ false) (λ place. First (R.Rate.order self.old.rate.now) (length self.old.entries.now) (marks self.old.entries.now) place) }
        ensures new { MatchOption result (marks self.new.entries.now ≡ marks self.old.entries.now) (λ place. Becomes (marks self.old.entries.now) (marks self.new.entries.now) place (Done (how (marks self.old.entries.now place)))) }
        ensures queued { Queued R.Rate.order self.new }
        ensures same { SameFrontier self.old self.new }
    {
        let order = &mut ByCost {
            entries: &mut *self.entries,
            rate: self.rate,
        };
        let first = self.places.take_first(order)?;
        self.entries[first.place as usize].state = State::Finished;
        Some(first.place)
    }

    // Notes that a place can be reached so.
    fn note(&mut self, place: u32, new: Reached)
        requires within { Offered self.old place new }
        requires queued { Queued R.Rate.order self.old }
        ensures queued { Queued R.Rate.order self.new }
        ensures noted { Noted (R.Rate.order self.old.rate.now) (marks self.old.entries.now) (marks self.new.entries.now) place new }
        ensures same { SameFrontier self.old self.new }
    {
        let entry = self.entries[place as usize];
        match entry.state {
            State::Unseen => self.add(place, new),
            State::Waiting => {
                let was = entry.reached().counts;
                if self.rate.compare(new.counts, was) == Comparison::Cheaper {
                    self.improve(place, new);
                }
            }
            State::Finished => {}
        }
    }

    // Follows the edges of all eight turns. Inlined, since as a call of its own, for each place finished, it makes searches take 0.5 to 5 % more instructions.
    #[inline(always)]
    pub(crate) fn follow_all<G: Graph>(&mut self, graph: &G, from: Position, base: Reached)
        requires sized { length self.old.entries.now ≡ G.Graph.size graph.now }
        requires standing { Standing R.Rate.order (G.Graph.out graph.now) self.old from base 0 }
        ensures standing { Standing R.Rate.order (G.Graph.out graph.now) self.new from base 8 }
        ensures finished { finished self.new.entries.now ≡ finished self.old.entries.now }
        ensures same { SameFrontier self.old self.new }
    {
        for edge in graph.edges(from).iter() {
            let Some(edge) = edge else {
                continue;
            };
            let counts = base.counts + edge.counts;
            if counts.straight + counts.diagonal <= MOST_STEPS {
                self.note(edge.to, Reached { counts, from });
            }
        }
    }

    // Finishes places, the first of those that wait at a time, until one of them is a goal.
    pub(crate) fn reach_goal<G: Graph>(&mut self, graph: &G) -> Option<Found>
        requires sized { length self.old.entries.now ≡ G.Graph.size graph.now }
        requires clean { (k : ℕ) → marks self.old.entries.now k ≡ Unmet }
        requires queued { Queued R.Rate.order self.old }
        ensures answered { Answered (G.Graph.out graph.now) (R.Rate.order self.old.rate.now) (G.Graph.goal graph.now) self.new.entries.now result }
        ensures same { SameFrontier self.old self.new }
    {
        // Kept: the places finished are counted by hand, since their count is a part of the answer.
        let mut finished = 0;
        let mut from = Position::Start;
        let mut base = Reached {
            counts: Counts::NONE,
            from: Position::Start,
        };
        loop {
            self.follow_all(graph, from, base);
            let place = self.finish_first()?;
            finished += 1;
            base = self.entries[place as usize].reached();
            if graph.is_goal(place) {
                return Some(Found {
                    place,
                    counts: base.counts,
                    finished,
                });
            }
            from = Position::Place(place);
        }
    }
}
