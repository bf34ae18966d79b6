// What C calls: a batch on a new floor of a size, over lent bytes, words or numbers, under the exact rate. The answer is whether it was done: not where the size
// check refuses, where a reply has no place, or where there is no memory for the work lists; then no reply is written.
ghost use Rattle.rate.specs.Exact.{exact};
ghost use Rattle.boundary.specs.Batches.{Done};

use crate::batches::run;
use crate::numbers::{Query, Reply};
use octets::ByteSource;
use packed::PackedSource;
use rates::exact::ExactRate;
use source::OnMemory;
use std::alloc::Global;
use table::TableSource;

// The batch, on a source of this kind.
fn answer_on<'a, S: OnMemory<'a> + Drop>(
    heap: Global,
    memory: &'a mut [S::Word],
    rows: usize,
    cols: usize,
    queries: &[Query],
    replies: &mut [Reply],
) -> bool
    ensures { Done exact rows cols queries.now replies.old replies.new result }
{
    if S::check(rows, cols, memory.len()).is_err() || replies.len() < queries.len() {
        return false;
    }
    let mut source = S::make(memory, rows, cols);
    run(heap, &mut source, &ExactRate, queries, replies).is_ok()
}

// Kept, here and below: C calls each source by a name of its own, and lends memory, rows and columns as they are.
#[unsafe(no_mangle)]
pub extern "C" fn planner_on_bytes(
    heap: Global,
    memory: &mut [u8],
    rows: usize,
    cols: usize,
    queries: &[Query],
    replies: &mut [Reply],
) -> bool
    ensures { Done exact rows cols queries.now replies.old replies.new result }
{
    answer_on::<ByteSource>(heap, memory, rows, cols, queries, replies)
}

#[unsafe(no_mangle)]
pub extern "C" fn planner_on_words(
    heap: Global,
    memory: &mut [u64],
    rows: usize,
    cols: usize,
    queries: &[Query],
    replies: &mut [Reply],
) -> bool
    ensures { Done exact rows cols queries.now replies.old replies.new result }
{
    answer_on::<PackedSource>(heap, memory, rows, cols, queries, replies)
}

#[unsafe(no_mangle)]
pub extern "C" fn planner_on_table(
    heap: Global,
    memory: &mut [u16],
    rows: usize,
    cols: usize,
    queries: &[Query],
    replies: &mut [Reply],
) -> bool
    ensures { Done exact rows cols queries.now replies.old replies.new result }
{
    answer_on::<TableSource>(heap, memory, rows, cols, queries, replies)
}
