// A batch: queries put to a fresh planner one after another, each reply written at the query's place.
ghost use Rattle.std.specs.Prelude.{◌≡◌, ◌≤◌, length, drop, OnErr, OnOk};
ghost use Rattle.floor.specs.Plans.{closed};
ghost use Rattle.search.specs.Work.{SameLists};
ghost use Rattle.lengths.specs.Questions.{places as places_of};
ghost use Rattle.boundary.specs.Numbers.{action_in};
ghost use Rattle.boundary.specs.Batches.{after_by, RightBy, AllRight};

use crate::numbers::{Action, Query, Reply};
use lengths::Room;
use lists::Lists;
use planner::{Planner, Work};
use rate::Rate;
use source::JumpSource;
use std::alloc::{AllocError, Global};

// Puts one query.
fn reply_to<S: JumpSource, R: Rate>(
    planner: &mut Planner<S, R>,
    query: Query,
    work: &mut Work<'_>,
) -> Reply
    ensures right { RightBy (R.Rate.order planner.old.rate) (length work.old.entries.now) (length work.old.waiting.now) (S.JumpSource.meaning planner.old.source) query (action_in query) result }
    ensures lists { SameLists work.old work.new }
    ensures plan { S.JumpSource.meaning planner.new.source ≡ after_by (S.JumpSource.meaning planner.old.source) query (action_in query) }
    ensures rate { planner.new.rate ≡ planner.old.rate }
{
    match Action::from(query) {
        Action::Close => Reply::from(planner.close(query.cell())),
        Action::Open => Reply::from(planner.open(query.cell())),
        Action::Measure => Reply::from(planner.length(query.cell(), query.target(), work)),
    }
}

// Puts all of them in order.
// Kept, here and below: queries and replies are two arguments, as C lends them; a struct of both would only be taken apart: no plainer.
fn reply_all<S: JumpSource, R: Rate>(
    planner: &mut Planner<S, R>,
    queries: &[Query],
    replies: &mut [Reply],
    work: &mut Work<'_>,
)
    requires { length queries.now ≤ length replies.old }
    ensures right { AllRight (R.Rate.order planner.old.rate) (length work.old.entries.now) (length work.old.waiting.now) (S.JumpSource.meaning planner.old.source) queries.now replies.new }
    ensures rest { drop (length queries.now) replies.new ≡ drop (length queries.now) replies.old }
{
    // Kept: over both lists at once, by zip and iter_mut, it is not proved: nothing is known, after the loop, of what the replies hold.
    for (i, query) in queries.iter().enumerate() {
        replies[i] = reply_to(planner, *query, work);
    }
}

// Puts queries to a fresh planner over a source, with work lists that suffice. Where there is no memory for these, no reply is written.
pub fn run<S: JumpSource, R: Rate>(
    heap: Global,
    source: &mut S,
    rate: &R,
    queries: &[Query],
    replies: &mut [Reply],
) -> Result<(), AllocError>
    requires { length queries.now ≤ length replies.old }
    ensures answered { OnOk result (AllRight (R.Rate.order rate.now) (places_of (S.JumpSource.meaning source.old)) (places_of (S.JumpSource.meaning source.old)) (closed (S.JumpSource.meaning source.old).rows (S.JumpSource.meaning source.old).cols) queries.now replies.new) }
    ensures rest { drop (length queries.now) replies.new ≡ drop (length queries.now) replies.old }
    ensures same { OnErr result (replies.new ≡ replies.old) }
{
    let places = 8 * source.size().cells();
    let room = Room {
        entries: places,
        waiting: places,
    };
    let mut lists = Lists::new(heap, room)?;
    let mut planner = Planner::new(&mut *source, rate);
    reply_all(&mut planner, queries, replies, &mut lists.work());
    Ok(())
}
