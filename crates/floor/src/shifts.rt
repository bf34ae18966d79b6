// What the steps of a heading do to a row or to a column.
ghost use Rattle.std.specs.Prelude.{◌≡◌, ℕ, ◌-◌, ◌^◌, ◌<◌, pos, if◌then◌else◌, Some, None, nat_lt};
ghost use Rattle.floor.specs.Steps.{by, Shifted, shifted, Meets};

// Each step takes one off, leaves it, or adds one.
#[derive(Clone, Copy)]
pub enum Shift {
    Less,
    Same,
    More,
}

impl Shift {
    // The row or column one step on, if there is one.
    pub fn apply(self, from: usize) -> Option<usize>
        ensures { Shifted (by self) from result }
    {
        match self {
            Shift::Less => from.checked_sub(1),
            Shift::Same => Some(from),
            Shift::More => from.checked_add(1),
        }
    }

    // After how many steps, one at least, it brings a row or column to another.
    pub fn steps_between(self, from: usize, to: usize) -> Option<usize>
        ensures { Meets self from to result }
    {
        match self {
            Shift::Less => past(to, from),
            Shift::Same => None,
            Shift::More => past(from, to),
        }
    }

    // The row or column after so many steps, none of which leaves the plan.
    pub fn carry(self, from: usize, steps: usize) -> usize
        requires { (m : ℕ) × (m < 2 ^ 64) × (pos m ≡ shifted (by self) steps (pos from)) }
        ensures { pos result ≡ shifted (by self) steps (pos from) }
    {
        match self {
            Shift::Less => from - steps,
            Shift::Same => from,
            Shift::More => from + steps,
        }
    }
}

// How far one number lies past another, if it does.
fn past(low: usize, high: usize) -> Option<usize>
    ensures { result ≡ (if nat_lt low high then Some (high - low) else None) }
{
    if low < high { Some(high - low) } else { None }
}
