// Why a sheet is refused, in figures and in words.
ghost use Rattle.std.specs.Prelude.{◌≡◌, Some};
ghost use Rattle.sheet.specs.Refusals.{figures_of, sentence};

use std::fmt;
use std::fmt::Display;

// Why a sheet is not read.
#[derive(Clone, Copy, PartialEq, Eq, Debug)]
pub enum Refusal {
    TooLong,
    ShortList,
    BadNames,
    FieldCount { line: usize },
    BadField { line: usize, field: usize },
    CellTwice { line: usize },
    SecondPanel { line: usize },
    NoPanel,
}

// A refusal's number, line and field.
// Kept: it is a rule of the printed form that 0 stands where one does not apply.
#[derive(Clone, Copy, PartialEq, Eq, Debug)]
pub struct Figures {
    pub number: usize,
    pub line: usize,
    pub field: usize,
}

impl Refusal {
    // Kept: two variants have one number and some have values, so a match says what an `as` or a derive could not.
    pub fn in_figures(&self) -> Figures
        ensures { result ≡ figures_of self.now }
    {
        let (number, line, field) = match *self {
            Refusal::TooLong => (15, 0, 0),
            Refusal::ShortList => (16, 0, 0),
            Refusal::BadNames => (17, 1, 0),
            Refusal::FieldCount { line } => (18, line, 0),
            Refusal::BadField { line, field } => (19, line, field),
            Refusal::CellTwice { line } => (20, line, 0),
            Refusal::SecondPanel { line } => (21, line, 0),
            Refusal::NoPanel => (21, 0, 0),
        };
        Figures {
            number,
            line,
            field,
        }
    }
}

// A refusal as a sentence for whoever wrote the sheet.
impl Display for Refusal {
    ghost output = { λ r. Some (sentence r) };

    fn fmt<W: fmt::Write>(&self, f: &mut fmt::Formatter<W>) -> fmt::Result {
        match *self {
            Refusal::TooLong => write!(f, "the sheet is longer than 4096 bytes"),
            Refusal::ShortList => write!(f, "there is no room for 256 entries"),
            Refusal::BadNames => write!(f, "line 1 does not name row, col and mark, each once"),
            Refusal::FieldCount { line } => write!(
                f,
                "line {line} does not have three fields parted by single spaces"
            ),
            Refusal::BadField { line, field } => write!(
                f,
                "line {line}: field {field} is not a value of its column"
            ),
            Refusal::CellTwice { line } => write!(
                f,
                "line {line} names a cell that an earlier line names"
            ),
            Refusal::SecondPanel { line } => write!(f, "line {line} has a second panel"),
            Refusal::NoPanel => write!(f, "no line has the panel"),
        }
    }
}
