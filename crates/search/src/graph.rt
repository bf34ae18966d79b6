// Graphs of numbered places, whose edges have counts.
ghost use Rattle.std.specs.Prelude.{◌≡◌, ℕ, ◌<◌, Bool, Option as Maybe};
ghost use Rattle.search.specs.declared.graph.Position.{Position as Where};
ghost use Rattle.search.specs.declared.graph.Edge.{Edge as Link};
ghost use Rattle.search.specs.Chain.{Inside, Edges, Sound};

use floor::Counts;

// An edge that would take a chain past so many steps is not followed.
pub const MOST_STEPS: u32 = 32_768;

// So many edges go out of each position at most, one for each turn.
pub const TURNS: usize = 8;

// Where a chain of edges stands: at its start, or at a place.
// Kept: it is no Option, since a chain that is at its start stands somewhere, and None would read as nowhere.
#[derive(Clone, Copy)]
pub enum Position {
    Start,
    Place(u32),
}

#[derive(Clone, Copy)]
pub struct Edge {
    pub to: u32,
    pub counts: Counts,
}

pub trait Graph {
    // Places are numbered from 0; so many there are.
    ghost size: { Self → ℕ };

    ghost out: { Self → Where → ℕ → Maybe Link };

    ghost goal: { Self → ℕ → Bool };

    ghost sound: { (graph : Self) → Sound (size graph) (out graph) (goal graph) };

    fn places(&self) -> usize
        ensures { result ≡ size self.now };

    // All edges out of a position together, in the order of the turns, so that what they share is worked out once. What a turn means is the graph's own.
    fn edges(&self, from: Position) -> [Option<Edge>; TURNS]
        requires { Inside (size self.now) from }
        ensures { Edges (out self.now from) result };

    fn is_goal(&self, place: u32) -> bool
        requires { place < size self.now }
        ensures { result ≡ goal self.now place };
}
