// Sources that are made on memory which is lent to them.
ghost use Rattle.std.specs.Prelude.{◌≡◌, ℕ, true, List, length};
ghost use Rattle.source.specs.Sizes.{within_limits, Checked, plan_made};

use crate::extents::Size;
use crate::sizes::{SizeRefusal, size_check};
use crate::traits::JumpSource;

// What a plan takes of memory. It is a trait of its own, since one with a lifetime, as that below, may give no function its body yet.
// Kept: rows and columns are two numbers, since any two may be asked; a `Size` would ask more.
pub trait Footprint {
    // How many words of memory a plan takes.
    ghost needed: { ℕ → ℕ → ℕ };

    // As many, for a plan within the limits; beyond them it may answer any number.
    fn words_for(rows: usize, cols: usize) -> usize
        ensures { within_limits rows cols ≡ true → result ≡ needed rows cols };

    // The size of a plan of so many rows and columns, if it can be laid on so many words.
    fn check(rows: usize, cols: usize, words: usize) -> Result<Size, SizeRefusal>
        ensures { Checked rows cols words (needed rows cols) result }
    {
        size_check(rows, cols, words, Self::words_for(rows, cols))
    }
}

// A source that is made on memory which is lent to it.
// Kept: rows and columns are two numbers here too, for the same reason.
pub trait OnMemory<'a>: JumpSource + Footprint {
    // What the memory consists of.
    type Word;

    // For so many rows and columns, memory that held this and was lent under this name, and the source made on it: what each source says of its
    // own words. Ours say what the plan's part holds, and that all past it is as it was; where the check refuses, that all is.
    ghost made: { ℕ → ℕ → List Self.Word → ℕ → Self → Type 0 };

    // A new plan, all closed; where the check refuses, the plan of no rows and no columns.
    fn make(memory: &'a mut [Self::Word], rows: usize, cols: usize) -> Self
        ensures plan { Self.JumpSource.meaning result ≡
            plan_made rows cols (length memory.old) (Self.Footprint.needed rows cols) }
        ensures memory { made rows cols memory.old memory.entry.ghost_name result };
}
