// The graph that a length is searched in: the leaps on the floor of a source, from a start and towards a target.
ghost use Rattle.std.specs.Prelude.{◌≡◌};
ghost use Rattle.std.specs.Option.{option_map};
ghost use Rattle.floor.specs.Plane.{point};
ghost use Rattle.floor.specs.Places.{successor as next_of};
ghost use Rattle.pruning.specs.Goings.{taken as taken_in};
ghost use Rattle.search.specs.Chain.{Edges};
ghost use Rattle.places.specs.Leaps.{leap, leaps, out, goal};
ghost use Rattle.places.proofs.Sound.{sound};
ghost use Rattle.lengths.specs.Questions.{places as places_of};

use crate::asking::places;
use floor::{Cell, Heading};
use places::{Place, cell_of};
use pruning::{goings_from_place, goings_from_start, successor};
use search::graph::{Edge, Graph, Position, TURNS};
use source::JumpSource;
use std::array;

#[derive(Drop)]
pub struct Leaps<'a, S> {
    pub source: &'a S,
    pub start: Cell,
    pub target: Cell,
}

// The edge of the leap from a cell in a heading towards a target, if there is one.
// Kept: no method of `Leaps`, which it would keep in memory: searches took 0.2 to 1.2 % more instructions so when it was tried.
fn leap_from<S: JumpSource>(source: &S, cell: Cell, heading: Heading, target: Cell) -> Option<Edge>
    ensures { result ≡ option_map (leap (S.JumpSource.meaning source.now).cols (point cell) heading) (next_of (S.JumpSource.meaning source.now) (point target) (point cell) heading) }
{
    let leap = successor(source, cell, heading, target)?;
    let place = Place {
        cell: leap.cell,
        heading,
    };
    Some(Edge {
        to: place.number(source.size().cols),
        counts: leap.counts,
    })
}

// The edge of the leap from a cell in the heading of a number, if that heading is taken.
fn leap_if<S: JumpSource>(
    source: &S,
    cell: Cell,
    taken: bool,
    number: u8,
    target: Cell,
) -> Option<Edge>
    ensures { result ≡ leaps (S.JumpSource.meaning source.now) target (point cell) (λ _. taken) number }
{
    let heading = Heading::try_from(number).ok()?;
    if taken {
        leap_from(source, cell, heading, target)
    } else {
        None
    }
}

// The edges of the leaps from a cell in the headings that are taken, in the order of their numbers.
fn leaps_from<S: JumpSource>(
    source: &S,
    cell: Cell,
    taken: [bool; TURNS],
    target: Cell,
) -> [Option<Edge>; TURNS]
    ensures { Edges (leaps (S.JumpSource.meaning source.now) target (point cell) (taken_in taken)) result }
{
    array::from_fn(|number| leap_if(source, cell, taken[number], number as u8, target))
}

impl<'a, S: JumpSource> Graph for Leaps<'a, S> {
    ghost size = { λ g. places_of (S.JumpSource.meaning g.source.now) };

    ghost out = { λ g. out (S.JumpSource.meaning g.source.now) g.start g.target };

    ghost goal = { λ g. goal (S.JumpSource.meaning g.source.now) g.start g.target };

    ghost sound = { λ g. sound (S.JumpSource.meaning g.source.now) (S.JumpSource.sized g.source.now) g.start g.target };

    fn places(&self) -> usize {
        places(self.source)
    }

    fn edges(&self, from: Position) -> [Option<Edge>; TURNS] {
        match from {
            Position::Start => {
                leaps_from(self.source, self.start, goings_from_start(), self.target)
            }
            Position::Place(number) => {
                let place = Place::numbered(number, self.source.size().cols);
                let taken = goings_from_place(self.source, place.cell, place.heading);
                leaps_from(self.source, place.cell, taken, self.target)
            }
        }
    }

    fn is_goal(&self, place: u32) -> bool {
        self.start != self.target && cell_of(place, self.source.size().cols) == self.target
    }
}
