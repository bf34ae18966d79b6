//! Whole runs: any list of calls, in any order, refused ones included.
ghost use Rattle.std.specs.Prelude.{◌≡◌, ◌<◌, ◌↔◌, IsTrue};
ghost use Rattle.history.specs.Records.{Fit};
ghost use Rattle.history.specs.Promise.{SameSize, TheSameForAnyTwoSources};
ghost use Rattle.history.specs.Runs.{told_on, Ran, RunPromised};

use crate::calls::{Call, Rooms, Tape};
use crate::steps::answer;
use planner::Planner;
use rate::Rate;
use source::JumpSource;

// Whether what is left has room for a call and for its answer.
fn has_room(call: &Call<'_>, left: Rooms, answers: usize) -> bool
    ensures { IsTrue result ↔ (Fit call.now.rooms left × (0 < answers)) }
{
    call.rooms.fit(left) && answers > 0
}

/// Puts the calls in their order, as many as the tape has room for, and answers how many.
pub fn replay<S: JumpSource, R: Rate>(
    planner: &mut Planner<S, R>,
    calls: &[Call<'_>],
    tape: &mut Tape<'_>,
) -> usize
    ensures ran { Ran S.meaning S.lent S.intact (R.order planner.old.rate)
        (record { plan = S.meaning planner.old.source }) calls.now result
        planner.old.source planner.new.source tape.old tape.new }
    ensures rate { planner.new.rate ≡ planner.old.rate }
    ensures kept { S.lent planner.old.source planner.new.source }
{
    let entries = &mut *tape.entries;
    let waiting = &mut *tape.waiting;
    let corners = &mut *tape.corners;
    let legs = &mut *tape.legs;
    let answers = &mut *tape.answers;
    let mut bends = 0;
    let mut measured = 0;
    let mut done = 0;
    for call in calls {
        let left = Rooms {
            entries: entries.len(),
            waiting: waiting.len(),
            corners: corners.len() - bends,
            legs: legs.len() - measured,
        };
        if !has_room(call, left, answers.len() - done) {
            return done;
        }
        let said = answer(
            planner,
            &call.asks,
            &mut entries[..call.rooms.entries],
            &mut waiting[..call.rooms.waiting],
            &mut corners[bends..bends + call.rooms.corners],
            &mut legs[measured..measured + call.rooms.legs],
        );
        answers[done] = said;
        bends += said.corners();
        measured += said.legs();
        done += 1;
    }
    done
}

/// The same by a fresh planner over a lent source: whatever the source held, no cell is open before the first call.
pub fn replay_fresh<S: JumpSource, R: Rate>(
    source: &mut S,
    rate: &R,
    calls: &[Call<'_>],
    tape: &mut Tape<'_>,
) -> usize
    ensures promised { RunPromised S.meaning S.lent S.intact (R.order rate.now) calls.now result
        source.old source.new tape.old tape.new }
{
    let mut planner = Planner::new(source, rate);
    replay(&mut planner, calls, tape)
}

/// Two fresh planners, over any two sources and under one rate, are put the same calls, each with lists of its own. In both runs
/// each answer is the cheapest at its moment, and more open cells never cost more, earlier or later; and where the sources have one
/// size, the runs answer alike.
pub fn replay_both<S: JumpSource, T: JumpSource, R: Rate>(
    first: &mut S,
    second: &mut T,
    rate: &R,
    calls: &[Call<'_>],
    one: &mut Tape<'_>,
    two: &mut Tape<'_>,
) -> (usize, usize)
    ensures first { RunPromised S.meaning S.lent S.intact (R.order rate.now) calls.now result.0
        first.old first.new one.old one.new }
    ensures second { RunPromised T.meaning T.lent T.intact (R.order rate.now) calls.now result.1
        second.old second.new two.old two.new }
    ensures the_same_for_any_two_sources { SameSize (S.meaning first.old) (T.meaning second.old) →
        TheSameForAnyTwoSources (R.order rate.now) (told_on result.0 one.new) (told_on result.1 two.new) }
{
    let put = replay_fresh(first, rate, calls, one);
    (put, replay_fresh(second, rate, calls, two))
}
