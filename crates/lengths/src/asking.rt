// The questions that are put before anything is searched.
ghost use Rattle.std.specs.Prelude.{◌≡◌, length};
ghost use Rattle.std.specs.Result.{result_err};
ghost use Rattle.lengths.specs.Questions.{first_no, length_questions, route_questions, places as places_of};

use crate::answers::Refusal;
use floor::Cell;
use search::Work;
use source::JumpSource;

// How long the two work lists are.
#[derive(Clone, Copy, PartialEq, Eq, Debug)]
pub struct Room {
    pub entries: usize,
    pub waiting: usize,
}

impl Room {
    pub(crate) fn of(work: &Work<'_>) -> Room
        ensures entries { result.entries ≡ length work.now.entries.now }
        ensures waiting { result.waiting ≡ length work.now.waiting.now }
    {
        Room {
            entries: work.entries.len(),
            waiting: work.waiting.len(),
        }
    }
}

// How many places a floor has: eight to a cell.
pub(crate) fn places<S: JumpSource>(source: &S) -> usize
    ensures { result ≡ places_of (S.JumpSource.meaning source.now) }
{
    8 * source.size().cells()
}

// Puts the questions about a length, in order; the first that is answered no refuses it.
pub fn check<S: JumpSource>(
    source: &S,
    start: Cell,
    target: Cell,
    room: Room,
) -> Result<(), Refusal>
    ensures { result_err result ≡ first_no (length_questions (S.JumpSource.meaning source.now) start target room.entries room.waiting) }
{
    let size = source.size();
    let places = places(source);
    if !size.holds(start) {
        Err(Refusal::Outside)
    } else if !size.holds(target) {
        Err(Refusal::TargetOutside)
    } else if !source.is_open(start) {
        Err(Refusal::Closed)
    } else if !source.is_open(target) {
        Err(Refusal::TargetClosed)
    } else if room.entries < places || room.waiting < places {
        Err(Refusal::ShortWork)
    } else {
        Ok(())
    }
}

// Puts the questions about a route, whose corner list has this length.
pub(crate) fn check_route<S: JumpSource>(
    source: &S,
    start: Cell,
    target: Cell,
    room: Room,
    corners: usize,
) -> Result<(), Refusal>
    ensures { result_err result ≡ first_no (route_questions (S.JumpSource.meaning source.now) start target room.entries room.waiting corners) }
{
    check(source, start, target, room)?;
    if corners < source.size().cells() {
        Err(Refusal::ShortCorners)
    } else {
        Ok(())
    }
}
