// Why a sheet is not quoted: a line of values, whose text is fixed, and a sentence.
ghost use Rattle.std.specs.Prelude.{◌≡◌, Some};
ghost use Rattle.writing.specs.Fronts.{Wrote, Fits, Added};
ghost use Rattle.sheet.specs.Refusals.{figures_of};
ghost use Rattle.quoting.specs.Faults.{origin_name, sheet_fault, call_fault, fault_of, fault_line, refusal_text, leg_sentence, sentence};

use crate::quotes::PAGE;
use lengths::Refusal as CallRefusal;
use listing::lines::ListingRefusal;
use planner::LoopRefusal;
use std::fmt;
use std::fmt::Display;
use writing::Page;

// Who refuses.
#[derive(Clone, Copy, PartialEq, Eq, Debug)]
pub enum Origin {
    Sheet,
    Planner,
    Listing,
}

// A refusal as it is printed.
// Kept: it is a rule of the printed form that 0 stands where a value does not apply.
#[derive(Clone, Copy, PartialEq, Eq, Debug)]
pub struct Fault {
    pub number: usize,
    pub from: Origin,
    pub line: usize,
    pub field: usize,
    pub leg: usize,
}

impl Origin {
    // The word for it.
    fn name(self) -> &'static str
        ensures { result.now ≡ origin_name self }
    {
        match self {
            Origin::Sheet => "sheet",
            Origin::Planner => "planner",
            Origin::Listing => "listing",
        }
    }
}

// A sheet's refusal as it is printed.
impl From<&sheet::Refusal> for Fault {
    ghost from_gives = { λ refusal fault. fault ≡ sheet_fault (figures_of refusal.now) };

    fn from(refusal: &sheet::Refusal) -> Fault {
        let figures = refusal.in_figures();
        Fault {
            number: figures.number,
            from: Origin::Sheet,
            line: figures.line,
            field: figures.field,
            leg: 0,
        }
    }
}

// A refusal that lies in no sheet, as it is printed, with the leg of a loop from 1, or 0 where there is none.
// Kept: a From would need a refusal to convert from, and here are who refuses and two numbers.
fn call_fault(from: Origin, number: usize, leg: usize) -> Fault
    ensures { result ≡ call_fault from number leg }
{
    Fault {
        number,
        from,
        line: 0,
        field: 0,
        leg,
    }
}

// The first of the three that refuses: the reader of the sheet, the planner, or the listing.
#[derive(Clone, Copy)]
pub enum Refusal {
    Sheet(sheet::Refusal),
    Planner(LoopRefusal),
    Listing(ListingRefusal),
}

impl From<Refusal> for Fault {
    ghost from_gives = { λ refusal fault. fault ≡ fault_of refusal };

    fn from(refusal: Refusal) -> Fault {
        match refusal {
            Refusal::Sheet(refusal) => Fault::from(&refusal),
            Refusal::Planner(refusal) => call_fault(
                Origin::Planner,
                usize::from(refusal.number()),
                refusal.leg(),
            ),
            Refusal::Listing(refusal) => call_fault(
                Origin::Listing,
                usize::from(refusal.number()),
                refusal.leg(),
            ),
        }
    }
}

// Writes the names and the values of a refusal.
// Kept: by `write!` to a page it was not proved, as `writing` says: nothing says that a page with room answers Ok, and only then is it promised what
// stands there.
fn put_fault(page: &mut Page, fault: Fault)
    requires { Fits page.old (fault_line fault) }
    ensures { Added page.old (fault_line fault) page.new }
{
    page.put(b"number from line field leg\n");
    page.put_number(fault.number as u64);
    page.put(b" ");
    page.put(fault.from.name().as_bytes());
    page.put_last_values(&[fault.line as u64, fault.field as u64, fault.leg as u64]);
}

// Writes a refusal to the front of a page, and answers how long the text is.
// Kept: the length is what a quote answers, and its caller would have to make a Page only to ask that of it: no plainer.
pub fn put_refusal(bytes: &mut [u8; PAGE], refusal: Refusal) -> usize
    ensures { Wrote bytes.old 0 (refusal_text refusal) bytes.new result }
{
    let mut page = Page::new(bytes);
    put_fault(&mut page, Fault::from(refusal));
    page.len()
}

// What is wrong with a leg.
#[derive(Clone, Copy)]
struct OfLeg(CallRefusal);

impl Display for OfLeg {
    ghost output = { λ o. Some (leg_sentence o.0) };

    fn fmt<W: fmt::Write>(&self, f: &mut fmt::Formatter<W>) -> fmt::Result {
        f.write_str(match self.0 {
            CallRefusal::Outside => "its start is outside the floor",
            CallRefusal::TargetOutside => "its end is outside the floor",
            CallRefusal::Closed => "its start is closed",
            CallRefusal::TargetClosed => "its end is closed",
            CallRefusal::ShortWork => "a work list is too short",
            CallRefusal::ShortCorners => "the corner list is too short",
            CallRefusal::NoRoute => "no legal route leads to its end",
        })
    }
}

// A refusal as a sentence for whoever wrote the sheet.
impl Display for Refusal {
    ghost output = { λ r. Some (sentence r) };

    fn fmt<W: fmt::Write>(&self, f: &mut fmt::Formatter<W>) -> fmt::Result {
        match *self {
            Refusal::Sheet(refusal) => write!(f, "{refusal}"),
            Refusal::Planner(LoopRefusal::CellCount) => {
                write!(f, "a loop has 2 to 64 stops, the panel among them")
            }
            Refusal::Planner(LoopRefusal::ShortLegs) => write!(f, "the leg list is too short"),
            Refusal::Planner(LoopRefusal::Leg { leg, refusal }) => {
                write!(f, "leg {leg}: {}", OfLeg(refusal))
            }
            Refusal::Listing(ListingRefusal::LegCount) => write!(f, "a listing has 2 to 64 legs"),
            Refusal::Listing(ListingRefusal::ShortBuffer) => write!(f, "the page is too short"),
            Refusal::Listing(ListingRefusal::Side) => {
                write!(f, "the side of a cell is not 1 to 2000 mm")
            }
            Refusal::Listing(ListingRefusal::Count { leg }) => {
                write!(f, "leg {leg}: a count is above 1048576")
            }
        }
    }
}
