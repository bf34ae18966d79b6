// How many answers were compared, and how many differ, kind by kind.
use std::fmt;
use std::ops::Add;

#[derive(Clone, Copy, Default)]
pub struct Line {
    compared: u64,
    differ: u64,
}

impl Line {
    pub fn note(&mut self, agrees: bool) {
        self.compared = self.compared.saturating_add(1);
        if !agrees {
            self.differ = self.differ.saturating_add(1);
        }
    }
}

impl Add for Line {
    type Output = Line;

    fn add(self, other: Line) -> Line {
        Line {
            compared: self.compared.saturating_add(other.compared),
            differ: self.differ.saturating_add(other.differ),
        }
    }
}

impl fmt::Display for Line {
    fn fmt<W: fmt::Write>(&self, f: &mut fmt::Formatter<W>) -> fmt::Result {
        let compared = self.compared;
        let differ = self.differ;
        write!(f, "{compared} differ {differ}")
    }
}

// Kept: ten fields, since each line is noted by its name; in an array a kind would be a number.
#[derive(Clone, Copy, Default)]
pub struct Tally {
    pub marks: Line,
    pub jumps: Line,
    pub labels: Line,
    pub lengths: Line,
    pub finished: Line,
    pub figures: Line,
    pub routes: Line,
    pub loops: Line,
    pub memory: Line,
    pub edges: Line,
}

impl Tally {
    fn named(&self) -> [(&'static str, Line); 10] {
        [
            ("marks", self.marks),
            ("jumps", self.jumps),
            ("labels", self.labels),
            ("lengths", self.lengths),
            ("finished", self.finished),
            ("figures", self.figures),
            ("routes", self.routes),
            ("loops", self.loops),
            ("memory", self.memory),
            ("edges", self.edges),
        ]
    }

    fn total(&self) -> Line {
        self.named()
            .iter()
            .fold(Line::default(), |all, (_, line)| all + *line)
    }

    // How many answers differ, of any kind.
    pub fn differ(&self) -> u64 {
        self.total().differ
    }
}

// A line for each kind, and the total.
impl fmt::Display for Tally {
    fn fmt<W: fmt::Write>(&self, f: &mut fmt::Formatter<W>) -> fmt::Result {
        for (name, line) in self.named() {
            writeln!(f, "{name} {line}")?;
        }
        let all = self.total();
        write!(f, "all {all}")
    }
}
