//! Answers as lines of text, and whether two say the same.
use floor::{Cell, Counts};
use history::Answer;
use lengths::Refusal;
use planner::LoopRefusal;
use std::fmt;
use std::fmt::Display;

/// An answer with the corners or the legs' counts that its call wrote.
#[derive(Clone, Copy)]
pub struct Told<'a> {
    pub answer: Answer,
    pub corners: &'a [Cell],
    pub legs: &'a [Counts],
}

impl Told<'_> {
    /// Whether two answers say the same, but for what may hang on the source: the finished places, and which of the cheapest routes is drawn.
    pub fn agrees(&self, other: &Told<'_>) -> bool {
        match (self.answer, other.answer) {
            (Answer::Changed(one), Answer::Changed(two)) => one == two,
            (Answer::Length(one), Answer::Length(two)) => {
                one.map(|measured| measured.counts) == two.map(|measured| measured.counts)
            }
            (Answer::Route(one), Answer::Route(two)) => {
                one.map(|drawn| drawn.measured.counts) == two.map(|drawn| drawn.measured.counts)
            }
            (Answer::Loop { answer: one, .. }, Answer::Loop { answer: two, .. }) => {
                one == two && self.legs == other.legs
            }
            _ => false,
        }
    }
}

// Counts, the straight steps first.
#[derive(Clone, Copy)]
struct Steps(Counts);

impl Display for Steps {
    fn fmt<W: fmt::Write>(&self, f: &mut fmt::Formatter<W>) -> fmt::Result {
        write!(f, "{} {}", self.0.straight, self.0.diagonal)
    }
}

fn refused<W: fmt::Write>(f: &mut fmt::Formatter<W>, refusal: Refusal) -> fmt::Result {
    write!(f, "refused {}", refusal.number())
}

fn loop_refused<W: fmt::Write>(f: &mut fmt::Formatter<W>, refusal: LoopRefusal) -> fmt::Result {
    match refusal {
        LoopRefusal::Leg { leg, .. } => write!(f, "refused {} leg {leg}", refusal.number()),
        LoopRefusal::CellCount | LoopRefusal::ShortLegs => {
            write!(f, "refused {}", refusal.number())
        }
    }
}

fn drawn<W: fmt::Write>(
    f: &mut fmt::Formatter<W>,
    counts: Counts,
    corners: &[Cell],
) -> fmt::Result {
    write!(f, "route {} corners", Steps(counts))?;
    for corner in corners {
        write!(f, " {} {}", corner.row, corner.col)?;
    }
    Ok(())
}

fn toured<W: fmt::Write>(
    f: &mut fmt::Formatter<W>,
    counts: Counts,
    legs: &[Counts],
) -> fmt::Result {
    write!(f, "loop {} legs", Steps(counts))?;
    for leg in legs {
        write!(f, " {}", Steps(*leg))?;
    }
    Ok(())
}

impl Display for Told<'_> {
    fn fmt<W: fmt::Write>(&self, f: &mut fmt::Formatter<W>) -> fmt::Result {
        match self.answer {
            Answer::Changed(Ok(true)) => write!(f, "changed yes"),
            Answer::Changed(Ok(false)) => write!(f, "changed no"),
            Answer::Length(Ok(measured)) => {
                let steps = Steps(measured.counts);
                write!(f, "length {steps} finished {}", measured.finished)
            }
            Answer::Route(Ok(answer)) => drawn(f, answer.measured.counts, self.corners),
            Answer::Loop { answer, .. } => match answer {
                Ok(counts) => toured(f, counts, self.legs),
                Err(refusal) => loop_refused(f, refusal),
            },
            Answer::Changed(Err(refusal))
            | Answer::Length(Err(refusal))
            | Answer::Route(Err(refusal)) => refused(f, refusal),
        }
    }
}
