//! One call at a time: the public step of which every run is made.
ghost use Rattle.std.specs.Prelude.{◌≡◌, true};
ghost use Rattle.history.specs.Calls.{after_call};
ghost use Rattle.history.specs.Records.{asked, measured_legs, is_refused};
ghost use Rattle.history.specs.Lists.{lists, rooms, Put};

use crate::calls::{Answer, Asks};
use floor::{Cell, Counts};
use planner::{Entry, LoopRefusal, Planner, Waiter, Work};
use rate::Rate;
use source::JumpSource;

// How many legs of a loop of so many cells were measured.
fn legs_measured(answer: &Result<Counts, LoopRefusal>, cells: usize) -> usize
    ensures { result ≡ measured_legs answer.now cells }
{
    match answer {
        Ok(_) => cells,
        Err(LoopRefusal::Leg { leg, .. }) => leg.saturating_sub(1),
        Err(LoopRefusal::CellCount | LoopRefusal::ShortLegs) => 0,
    }
}

/// Puts one call to a planner, with the lists that it is lent. It is always answered, as is right for these lists and the plan
/// that the source means. What it writes stands at the front of the corner list or of the leg list.
pub fn answer<S: JumpSource, R: Rate>(
    planner: &mut Planner<S, R>,
    asks: &Asks<'_>,
    entries: &mut [Entry],
    waiting: &mut [Waiter],
    corners: &mut [Cell],
    legs: &mut [Counts],
) -> Answer
    ensures put { Put (R.order planner.old.rate) (S.meaning planner.old.source) asks.now result
        (lists entries.old waiting.old corners.old legs.old) (lists entries.new waiting.new corners.new legs.new) }
    ensures plan { S.meaning planner.new.source ≡
        after_call (S.meaning planner.old.source) (asked asks.now (rooms entries.old waiting.old corners.old legs.old)) }
    ensures rate { planner.new.rate ≡ planner.old.rate }
    ensures kept { S.lent planner.old.source planner.new.source }
    ensures refused { is_refused result ≡ true → S.intact planner.old.source planner.new.source }
{
    let mut work = Work { entries, waiting };
    match asks {
        Asks::Open(cell) => Answer::Changed(planner.open(*cell)),
        Asks::Close(cell) => Answer::Changed(planner.close(*cell)),
        Asks::Length { start, target } => {
            Answer::Length(planner.length(*start, *target, &mut work))
        }
        Asks::Route { start, target } => {
            Answer::Route(planner.route(*start, *target, &mut work, corners))
        }
        Asks::Loop(cells) => {
            let answer = planner.tour(cells, &mut work, legs);
            Answer::Loop {
                answer,
                legs: legs_measured(&answer, cells.len()),
            }
        }
    }
}
