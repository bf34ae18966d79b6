// Counts of steps, added up.
use floor::Counts;

// Before the first step.
// Kept, as the sum below: beside the floor's own, since it is a rule of the project that what checks the answers shares no formula with them.
pub const NO_STEPS: Counts = Counts {
    straight: 0,
    diagonal: 0,
};

// So many steps with one heading.
pub fn steps_on(heading: usize, steps: u32) -> Counts {
    if heading % 2 == 0 {
        Counts {
            straight: steps,
            diagonal: 0,
        }
    } else {
        Counts {
            straight: 0,
            diagonal: steps,
        }
    }
}

// The counts of one way after another, if they are not too large.
pub fn both(first: Counts, second: Counts) -> Option<Counts> {
    Some(Counts {
        straight: first.straight.checked_add(second.straight)?,
        diagonal: first.diagonal.checked_add(second.diagonal)?,
    })
}
