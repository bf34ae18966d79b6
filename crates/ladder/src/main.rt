// A ladder, as the least example of a graph to search: up by one with a straight step, up by two with a diagonal one.
#![tactic(auto)]

ghost use Rattle.std.specs.Prelude.{◌==◌, nat_eq};
ghost use Rattle.ladder.specs.Rungs.{rungs, ladder_sound};

use floor::Counts;
use rates::counter::CounterRate;
use search::entry::Entry;
use search::graph::{Edge, Graph, Position, TURNS};
use search::{Waiter, Work, search};
use std::io;

const RUNGS: u32 = 10;

#[derive(Clone, Copy)]
struct Ladder {
    top: u32,
}

impl Graph for Ladder {
    ghost size = { λ _. 10 };

    ghost out = { λ _. rungs 10 };

    ghost goal = { λ ladder k. (k == ladder.top) };

    ghost sound = { λ ladder. ladder_sound (λ k. nat_eq k ladder.top) };

    fn places(&self) -> usize {
        RUNGS as usize
    }

    fn edges(&self, from: Position) -> [Option<Edge>; TURNS] {
        let next = match from {
            Position::Start => 0,
            Position::Place(rung) => rung + 1,
        };
        let mut edges = [None; TURNS];
        if next < RUNGS {
            edges[0] = Some(Edge {
                to: next,
                counts: Counts {
                    straight: 1,
                    diagonal: 0,
                },
            });
        }
        if 1 < RUNGS - next {
            edges[1] = Some(Edge {
                to: next + 1,
                counts: Counts {
                    straight: 0,
                    diagonal: 1,
                },
            });
        }
        edges
    }

    fn is_goal(&self, place: u32) -> bool {
        place == self.top
    }
}

fn climb(rt: &HostRuntime, top: u32) -> io::Result<()> {
    let mut entries = [Entry::BLANK; 12];
    let mut waiting = [Waiter::BLANK; 12];
    let mut work = Work {
        entries: &mut entries,
        waiting: &mut waiting,
    };
    let Some(found) = search(&Ladder { top }, &CounterRate, &mut work) else {
        return println!(rt; "{top}: no way up");
    };
    let straight = found.counts.straight;
    let diagonal = found.counts.diagonal;
    let finished = found.finished;
    println!(rt; "{top}: {straight} straight, {diagonal} diagonal, {finished} finished")
}

fn main(rt: HostRuntime) -> io::Result<()> {
    climb(&rt, 0)?;
    climb(&rt, 8)?;
    climb(&rt, 12)
}
