// A sheet of marked cells: what it means, and the run that it asks for.
#![tactic(auto)]

ghost use Rattle.std.specs.Prelude.{◌≡◌, ◌+◌, ◌≤◌, length, take, IfOk, IfErr};
ghost use Rattle.writing.specs.Fronts.{Fits, Added};
ghost use Rattle.sheet.specs.Format.{pieces, lines};
ghost use Rattle.sheet.specs.Meaning.{named, has_panel, admitted, added, read_lines, reading_of, answered, over};
ghost use Rattle.sheet.specs.Accepted.{Accepted};
ghost use Rattle.sheet.specs.Laws.{FormatLaws};
ghost use Rattle.sheet.specs.Faults.{Right, Refused};
ghost use Rattle.sheet.specs.Readings.{ReadingLaws};
ghost use Rattle.sheet.specs.Run.{cells_marked, run_of};

mod columns;
mod refusals;
mod text;

use columns::{Names, entry_of, names_of};
use floor::Cell;
pub use refusals::{Figures, Refusal};
use text::without_end;
use writing::Front;

// What a sheet says of a cell that it names. Each of the three is open to cable.
#[derive(Clone, Copy, PartialEq, Eq, Debug)]
pub enum Mark {
    Open,
    Panel,
    Device,
}

// A cell, its mark, and the line that names it.
#[derive(Clone, Copy, PartialEq, Eq, Debug)]
pub struct Entry {
    pub cell: Cell,
    pub mark: Mark,
    pub line: usize,
}

impl Entry {
    // What an entry is before a line is read into it.
    pub const BLANK: Entry = Entry {
        cell: Cell { row: 0, col: 0 },
        mark: Mark::Open,
        line: 0,
    };
}

// The longest sheet, and how many cells it can name: 16 rows of 16.
pub const MAX_BYTES: usize = 4096;

pub const MAX_ENTRIES: usize = 256;

// Whether one of the entries names the cell.
fn names_cell(entries: &[Entry], cell: Cell) -> bool
    ensures { result ≡ named cell entries.now }
{
    entries.iter().any(|entry| entry.cell == cell)
}

// Whether one of the entries is a panel.
fn has_panel(entries: &[Entry]) -> bool
    ensures { result ≡ has_panel entries.now }
{
    entries.iter().any(|entry| entry.mark == Mark::Panel)
}

// An entry after those before it: its cell is not named yet, and it is not a second panel.
fn admit(before: &[Entry], entry: Entry) -> Result<Entry, Refusal>
    ensures { result ≡ admitted before.now entry }
{
    if names_cell(before, entry.cell) {
        return Err(Refusal::CellTwice { line: entry.line });
    }
    if entry.mark == Mark::Panel && has_panel(before) {
        return Err(Refusal::SecondPanel { line: entry.line });
    }
    Ok(entry)
}

// The entry that a line adds to those before it.
fn read_line(names: Names, line: usize, text: &[u8], before: &[Entry]) -> Result<Entry, Refusal>
    ensures { result ≡ added names line before.now text.now }
{
    let entry = entry_of(names, line, text)?;
    admit(before, entry)
}

// Reads the names of the first line, and the other lines into the front of the list.
// Kept, here, in `read` and in `quoting`: at most 256 is one short clause; a definition for it would have to be looked up, and be no plainer.
fn read_lines(text: &[u8], entries: &mut [Entry]) -> Result<usize, Refusal>
    requires { 256 ≤ length entries.old }
    ensures answer { result ≡ answered (read_lines (pieces 10 text.now)) }
    ensures list { entries.new ≡ over (read_lines (pieces 10 text.now)).meant entries.old }
    ensures few { IfOk result (λ n. n ≤ 256) }
    ensures accepted { IfOk result (λ n. (n + 1 ≡ length (pieces 10 text.now)) × Accepted (take n entries.new)) }
{
    let mut lines = text.split(|byte| *byte == b'\n');
    let Some(first) = lines.next() else {
        return Err(Refusal::BadNames);
    };
    let names = names_of(first)?;
    // Kept: the count is answered after the loop, where the number of an enumerate is gone.
    let mut count = 0;
    for line in lines {
        entries[count] = read_line(names, count + 2, line, &entries[0..count])?;
        count += 1;
    }
    if !has_panel(&entries[0..count]) {
        return Err(Refusal::NoPanel);
    }
    Ok(count)
}

// Reads a sheet into the front of a list, or says what is wrong with it.
// Kept: it is a rule of the project that memory is lent, and that this library allocates none to read.
pub fn read(sheet: &[u8], entries: &mut [Entry]) -> Result<usize, Refusal>
    ensures answer { result ≡ answered (reading_of sheet.now (length entries.old)) }
    ensures list { entries.new ≡ over (reading_of sheet.now (length entries.old)).meant entries.old }
    ensures few { IfOk result (λ n. n ≤ 256) }
    ensures accepted { IfOk result (λ n. (n + 1 ≡ length (lines sheet.now)) × Accepted (take n entries.new)) }
    ensures right { IfOk result (λ n. Right sheet.now (take n entries.new)) }
    ensures refused { IfErr result (Refused sheet.now entries.old entries.new) }
{
    if sheet.len() > MAX_BYTES {
        return Err(Refusal::TooLong);
    }
    if entries.len() < MAX_ENTRIES {
        return Err(Refusal::ShortList);
    }
    read_lines(without_end(sheet), entries)
}

// Writes the cells of the entries that have a mark, in their order.
fn put_marked(cells: &mut Front<'_, Cell>, entries: &[Entry], mark: Mark)
    requires { Fits cells.old (cells_marked mark entries.now) }
    ensures { Added cells.old (cells_marked mark entries.now) cells.new }
{
    let marked = entries.iter().filter(|entry| entry.mark == mark);
    for cell in marked.map(|entry| entry.cell) {
        cells.put(&[cell]);
    }
}

// Writes the run that the entries ask for to a list with room for as many cells as there are entries: the panel, and then the devices in line order.
pub fn put_run(run: &mut Front<'_, Cell>, entries: &[Entry])
    requires { run.old.len + length entries.now ≤ length run.old.list.now }
    ensures cells { Added run.old (run_of entries.now) run.new }
    ensures within { run.new.len ≤ run.old.len + length entries.now }
{
    put_marked(run, entries, Mark::Panel);
    put_marked(run, entries, Mark::Device);
}

// The laws of the format, for whoever reads its definition.
pub fn format_laws_hold()
    ensures { FormatLaws }
{}

// The laws of whole sheets: what is right is read, the first fault is told, and what is written of entries is read back.
pub fn reading_laws_hold()
    ensures { ReadingLaws }
{}
