// A whole quote: any bytes in, what is printed for them out.
ghost use Rattle.std.specs.Prelude.{◌≤◌, length, IfOk};
ghost use Rattle.sheet.specs.Accepted.{Accepted};
ghost use Rattle.quoting.specs.Quotes.{QuotedLoop, Quoted, OncePrinted};

use crate::faults::{Refusal, put_refusal};
use crate::loops::tour;
use floor::{Cell, Counts};
use listing::lines::list;
use sheet::{Entry, MAX_ENTRIES};
use writing::Front;

// One byte more than the longest sheet, so that a longer one shows.
pub const MOST_READ: u64 = sheet::MAX_BYTES as u64 + 1;

// Room for whatever is printed.
pub const PAGE: usize = 4096;

// How many bytes of the page are to be printed, and why the sheet is refused, if it is.
// Kept: no Result, since a refusal is printed too, and so the length stands in both cases; the page is lent.
#[derive(Clone, Copy)]
pub struct Outcome {
    pub length: usize,
    pub refusal: Option<Refusal>,
}

// The side of a cell in millimetres.
const SIDE: u32 = 1_000;

// What the list of stops holds before it is written to.
const NOWHERE: Cell = Cell { row: 0, col: 0 };

// Prints the listing of the loop through the stops of an accepted sheet, or says why there is none.
// Kept, here and below: that what is printed fits the page is one short clause; a definition for it would have to be looked up, and be no plainer.
fn list_loop(page: &mut [u8; PAGE], entries: &[Entry]) -> Result<usize, Refusal>
    requires accepted { Accepted entries.now }
    requires few { length entries.now ≤ 256 }
    ensures quoted { OncePrinted (λ after q. QuotedLoop page.old after q entries.now) page.old page.new result }
    ensures fits { IfOk result (λ n. n ≤ 4096) }
{
    let mut cells = [NOWHERE; MAX_ENTRIES];
    let mut stops = Front::new(&mut cells);
    sheet::put_run(&mut stops, entries);
    let mut legs = [Counts::NONE; 64];
    tour(entries, stops.written(), &mut legs).map_err(Refusal::Planner)?;
    list(SIDE, &legs[0..stops.len()], page).map_err(Refusal::Listing)
}

// Prints the listing of the loop through the stops of a sheet, or says why there is none.
fn list_sheet(page: &mut [u8; PAGE], sheet: &[u8]) -> Result<usize, Refusal>
    ensures quoted { OncePrinted (λ after q. Quoted sheet.now page.old after q) page.old page.new result }
    ensures fits { IfOk result (λ n. n ≤ 4096) }
{
    let mut entries = [Entry::BLANK; MAX_ENTRIES];
    let count = sheet::read(sheet, &mut entries).map_err(Refusal::Sheet)?;
    list_loop(page, &entries[0..count])
}

// Quotes a sheet: what is to be printed stands at the front of the page.
pub fn quote(sheet: &[u8], page: &mut [u8; PAGE]) -> Outcome
    ensures quoted { Quoted sheet.now page.old page.new result }
    ensures fits { result.length ≤ 4096 }
{
    match list_sheet(page, sheet) {
        Ok(length) => Outcome {
            length,
            refusal: None,
        },
        Err(refusal) => Outcome {
            length: put_refusal(page, refusal),
            refusal: Some(refusal),
        },
    }
}
