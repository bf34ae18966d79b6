// Cheapest chains over any graph of numbered places. Places wait in a heap, by the cheapest counts so far; the first of them is
// finished, and its edges are followed.
#![tactic(auto)]

ghost use Rattle.std.specs.Prelude.{◌≡◌, ℕ, ◌≤◌, true, length, take, drop};
ghost use Rattle.floor.specs.Tally.{steps};
ghost use Rattle.search.specs.Chain.{most};
ghost use Rattle.search.specs.Mark.{Unmet, marks, key, finished};
ghost use Rattle.search.specs.Search.{Traced, Back};
ghost use Rattle.search.specs.Queue.{waiter, counts_of};
ghost use Rattle.search.specs.Answer.{Answered};
ghost use Rattle.search.specs.Work.{SameLists};

use entry::Entry;
use floor::Counts;
use frontier::Frontier;
use graph::{Graph, Position};
use rate::Rate;
use waiting::Waiting;

pub mod entry;
mod frontier;
pub mod graph;

// The lists that a search works in, which are lent for it: an entry for each place, and the places that wait.
#[derive(Drop)]
pub struct Work<'a> {
    pub entries: &'a mut [Entry],
    pub waiting: &'a mut [Waiter],
}

// A place that waits, with the counts that it waits by, in 8 bytes: the heap compares what stands in its own slots, and reads no entries.
#[derive(Clone, Copy)]
pub struct Waiter {
    straight: u16,
    diagonal: u16,
    place: u32,
}

impl Waiter {
    // Of no place in particular, to make lists of.
    pub const BLANK: Waiter = Waiter {
        straight: 0,
        diagonal: 0,
        place: 0,
    };

    // Of a place that was reached with these counts.
    fn of(place: u32, counts: Counts) -> Waiter
        requires { steps counts ≤ most }
        ensures { result ≡ waiter place counts }
    {
        Waiter {
            straight: counts.straight as u16,
            diagonal: counts.diagonal as u16,
            place,
        }
    }

    // What it waits by.
    fn key(&self) -> Counts
        ensures { result ≡ counts_of self.now }
    {
        Counts {
            straight: u32::from(self.straight),
            diagonal: u32::from(self.diagonal),
        }
    }
}

// A goal that no other is cheaper to reach than, with the counts of a chain to it, and how many places were finished.
#[derive(Clone, Copy)]
pub struct Found {
    pub place: u32,
    pub counts: Counts,
    pub finished: usize,
}

// Forgets what the entries hold of an earlier search.
pub fn clear(entries: &mut [Entry])
    ensures { (k : ℕ) → marks entries.new k ≡ Unmet }
{
    entries.fill(Entry::BLANK);
}

// Searches over entries that are as many as the graph's places.
fn run<G: Graph, R: Rate>(
    graph: &G,
    rate: &R,
    entries: &mut [Entry],
    waiting: &mut [Waiter],
) -> Option<Found>
    requires sized { length entries.old ≡ G.Graph.size graph.now }
    requires room { length entries.old ≤ length waiting.old }
    ensures { Answered (G.Graph.out graph.now) (R.Rate.order rate.now) (G.Graph.goal graph.now) entries.new result }
{
    clear(entries);
    let mut frontier = Frontier {
        entries,
        rate,
        places: &mut Waiting::new(waiting),
    };
    frontier.reach_goal(graph)
}

// Finds a goal than which no other is cheaper to reach. One entry is used for each place, and as much of the waiting list.
pub fn search<G: Graph, R: Rate>(graph: &G, rate: &R, work: &mut Work<'_>) -> Option<Found>
    requires entries { G.Graph.size graph.now ≤ length work.old.entries.now }
    requires waiting { G.Graph.size graph.now ≤ length work.old.waiting.now }
    ensures answered { Answered (G.Graph.out graph.now) (R.Rate.order rate.now) (G.Graph.goal graph.now) (take (G.Graph.size graph.now) work.new.entries.now) result }
    ensures entries { drop (G.Graph.size graph.now) work.new.entries.now ≡ drop (G.Graph.size graph.now) work.old.entries.now }
    ensures waiting { drop (G.Graph.size graph.now) work.new.waiting.now ≡ drop (G.Graph.size graph.now) work.old.waiting.now }
    ensures same { SameLists work.old work.new }
{
    let places = graph.places();
    run(
        graph,
        rate,
        &mut work.entries[..places],
        &mut work.waiting[..places],
    )
}

// How many edges lead to a finished place, by the way back.
// Kept: as a chain of successors it is not proved, since their `count` asks for a chain that ends whatever its closure answers.
pub fn hops<G: Graph>(graph: &G, entries: &[Entry], place: u32) -> usize
    requires finished { finished entries.now place ≡ true }
    requires traced { Traced (G.Graph.out graph.now) (marks entries.now) }
    ensures { Back (G.Graph.out graph.now) (marks entries.now) (Position.Place place) (key (marks entries.now place)) result }
{
    let mut at = Position::Place(place);
    let mut count = 0;
    while let Position::Place(here) = at {
        at = entries[here as usize].reached().from;
        count += 1;
    }
    count
}
