// The loop through the stops of a sheet, on a floor with the sheet's cells open.
ghost use Rattle.std.specs.Prelude.{◌≡◌, ◌≤◌, length, OnOk};
ghost use Rattle.floor.specs.Plans.{closed, legal};
ghost use Rattle.source.specs.Drawing.{opened};
ghost use Rattle.planner.specs.Touring.{Toured};
ghost use Rattle.rate.specs.Exact.{exact};
ghost use Rattle.sheet.specs.Accepted.{Accepted};
ghost use Rattle.quoting.specs.Floors.{cells_of, floor_of};

use floor::{Cell, Counts};
use packed::PackedSource;
use planner::{Entry as Place, LoopRefusal, Planner, Waiter, Work};
use rate::Rate;
use rates::exact::ExactRate;
use sheet::Entry;
use source::JumpSource;

// Rows, and columns, of the floor that a sheet speaks of.
const SIDE: usize = 16;

// A word for each row, and one for each column.
const WORDS: usize = 32;

// Eight places for each cell.
// Kept: lists of that length are made here, beside the crate `lists`, whose lists are made on the heap. A quote allocates nothing, a rule of the project, and its floor has one size.
const PLACES: usize = 2048;

// Opens the cells that the entries name.
fn open_cells<S: JumpSource, R: Rate>(planner: &mut Planner<S, R>, entries: &[Entry])
    ensures plan { S.JumpSource.meaning planner.new.source ≡ opened (S.JumpSource.meaning planner.old.source) (cells_of entries.now) }
    ensures rate { planner.new.rate ≡ planner.old.rate }
{
    for entry in entries {
        let _ = planner.open(entry.cell);
    }
}

// The loop through these stops, on any source, where just the cells of the entries are open.
fn tour_on<S: JumpSource, R: Rate>(
    source: &mut S,
    rate: &R,
    entries: &[Entry],
    stops: &[Cell],
    legs: &mut [Counts],
) -> Result<Counts, LoopRefusal>
    ensures { Toured (R.Rate.order rate.now) legal (opened (closed (S.JumpSource.meaning source.old).rows (S.JumpSource.meaning source.old).cols) (cells_of entries.now)) stops.now 2048 2048 legs.old legs.new result }
{
    let mut planner = Planner::new(source, rate);
    open_cells(&mut planner, entries);
    let mut places = [Place::BLANK; PLACES];
    let mut waiting = [Waiter::BLANK; PLACES];
    let mut work = Work {
        entries: &mut places,
        waiting: &mut waiting,
    };
    planner.tour(stops, &mut work, legs)
}

// The loop through these stops on the floor of an accepted sheet, under the exact rate.
pub fn tour(entries: &[Entry], stops: &[Cell], legs: &mut [Counts]) -> Result<Counts, LoopRefusal>
    requires { Accepted entries.now }
    ensures told { Toured exact legal (floor_of entries.now) stops.now 2048 2048 legs.old legs.new result }
    ensures few { OnOk result (length stops.now ≤ length legs.old) }
{
    let mut words = [0u64; WORDS];
    let mut source = PackedSource::make(&mut words, SIDE, SIDE);
    tour_on(&mut source, &ExactRate, entries, stops, legs)
}
