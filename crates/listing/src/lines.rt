// The listing of a loop, leg by leg, at the front of a lent buffer.
ghost use Rattle.std.specs.Prelude.{◌≡◌, ◌+◌, ◌<◌, ◌≤◌, ◌++◌, List, length, Some, None, decimal, MatchResult, IfErr, OnOk};
ghost use Rattle.writing.specs.Fronts.{Fits, Added};
ghost use Rattle.listing.specs.declared.millimetres.Refusal.{Refusal as Refused};
ghost use Rattle.listing.specs.Millimetres.{refusal, Figure};
ghost use Rattle.listing.specs.Lines.{listing_number, listing_leg, of_leg, first_refused, Measures, AddsUp, plus_amount, in_all, values, leg_lines, listing_text, Listed};
ghost use Rattle.listing.specs.Faulty.{Faulty, Faultless};

use crate::millimetres::{Refusal, millimetres};
use floor::Counts;
use std::ops::Add;
use writing::{Front, Page};

// A loop has at least this many legs, and at most so many.
const FEWEST_LEGS: usize = 2;

const MOST_LEGS: usize = 64;

// Room for every listing.
pub const ROOM: usize = 4096;

// Why no listing is written; legs are counted from 1.
#[derive(Clone, Copy, PartialEq, Eq, Debug)]
pub enum ListingRefusal {
    LegCount,
    ShortBuffer,
    Side,
    Count { leg: usize },
}

impl ListingRefusal {
    // Kept: the numbers cannot be the variants' own, since one of the variants has a leg.
    pub fn number(self) -> u8
        ensures { result ≡ listing_number self }
    {
        match self {
            ListingRefusal::LegCount => 8,
            ListingRefusal::ShortBuffer => 14,
            ListingRefusal::Side => Refusal::Side.number(),
            ListingRefusal::Count { .. } => Refusal::Count.number(),
        }
    }

    // The refused leg, or 0 where none is.
    // Kept: 0 and no Option, since it is printed as a number, into which an Option would be turned back: no plainer.
    pub fn leg(self) -> usize
        ensures { result ≡ listing_leg self }
    {
        match self {
            ListingRefusal::LegCount | ListingRefusal::ShortBuffer | ListingRefusal::Side => 0,
            ListingRefusal::Count { leg } => leg,
        }
    }
}

// What is refused of a leg, if its figure is: a wrong side is that of all legs.
fn of_leg(leg: usize, refusal: Refusal) -> ListingRefusal
    ensures { result ≡ of_leg leg refusal }
{
    match refusal {
        Refusal::Side => ListingRefusal::Side,
        Refusal::Count => ListingRefusal::Count { leg },
    }
}

// Counts, and their millimetres.
#[derive(Clone, Copy)]
pub struct Amount {
    counts: Counts,
    millimetres: u64,
}

const NOTHING: Amount = Amount {
    counts: Counts::NONE,
    millimetres: 0,
};

// One amount and another.
impl Add for Amount {
    type Output = Amount;

    ghost can_add = { AddsUp };

    ghost add_gives = { λ first second sum. sum ≡ plus_amount first second };

    fn add(self, other: Amount) -> Amount {
        Amount {
            counts: self.counts + other.counts,
            millimetres: self.millimetres + other.millimetres,
        }
    }
}

// A leg's counts with their millimetres, or why they have none.
fn amount_of(side: u32, leg: usize, counts: Counts) -> Result<Amount, ListingRefusal>
    ensures { MatchResult result (λ a. (refusal side counts ≡ None) × (a.counts ≡ counts) × Figure side counts a.millimetres) (λ e. (x : Refused) × (refusal side counts ≡ Some x) × (e ≡ of_leg leg x)) }
{
    let millimetres = millimetres(side, counts).map_err(|refusal| of_leg(leg, refusal))?;
    Ok(Amount {
        counts,
        millimetres,
    })
}

// Writes the values of a line after its name.
// Kept, here and below: put to the page and not by `write!`, for the reason that `writing` gives: nothing says that a page with room answers Ok.
fn put_values(page: &mut Page, amount: Amount)
    requires { Fits page.old (values amount) }
    ensures { Added page.old (values amount) page.new }
{
    let Counts { straight, diagonal } = amount.counts;
    page.put_last_values(&[u64::from(straight), u64::from(diagonal), amount.millimetres]);
}

// Writes the line of a leg.
fn put_leg(page: &mut Page, leg: usize, amount: Amount)
    requires { Fits page.old (decimal leg ++ values amount) }
    ensures { Added page.old (decimal leg ++ values amount) page.new }
{
    page.put_number(leg as u64);
    put_values(page, amount);
}

// Writes the lines of the legs, from the first.
fn put_legs(page: &mut Page, amounts: &[Amount])
    requires { Fits page.old (leg_lines 1 amounts.now) }
    ensures { Added page.old (leg_lines 1 amounts.now) page.new }
{
    for (i, amount) in amounts.iter().enumerate() {
        put_leg(page, i + 1, *amount);
    }
}

// Writes the whole listing.
fn put_listing(page: &mut Page, amounts: &[Amount], total: Amount)
    requires room { Fits page.old (listing_text amounts.now) }
    requires total { total ≡ in_all amounts.now }
    ensures { Added page.old (listing_text amounts.now) page.new }
{
    page.put(b"leg straight diagonal mm\n");
    put_legs(page, amounts);
    page.put(b"all");
    put_values(page, total);
}

// The amount of each leg is written to a list, and that of all is answered.
fn measure(
    side: u32,
    legs: &[Counts],
    amounts: &mut Front<'_, Amount>,
) -> Result<Amount, ListingRefusal>
    requires few { length legs.now ≤ 64 }
    requires room { amounts.old.len + length legs.now ≤ length amounts.old.list.now }
    ensures { MatchResult result (λ total. (items : List Amount) × (first_refused side 1 legs.now ≡ None) × Measures side legs.now items × (total ≡ in_all items) × Added amounts.old items amounts.new) (λ e. first_refused side 1 legs.now ≡ Some e) }
{
    let mut total = NOTHING;
    for (i, counts) in legs.iter().enumerate() {
        let amount = amount_of(side, i + 1, *counts)?;
        amounts.put(&[amount]);
        total = total + amount;
    }
    Ok(total)
}

// Writes the listing of a loop's legs, over cells of this side, to the front of a buffer, and answers how long it is.
// Kept: it is a rule of the project that the buffer is lent.
pub fn list(side: u32, legs: &[Counts], buffer: &mut [u8]) -> Result<usize, ListingRefusal>
    ensures listed { Listed side legs.now buffer.old buffer.new result }
    ensures refused { IfErr result (Faulty side legs.now (length buffer.old)) }
    ensures faultless { OnOk result (Faultless side legs.now (length buffer.old)) }
{
    if !(FEWEST_LEGS..=MOST_LEGS).contains(&legs.len()) {
        return Err(ListingRefusal::LegCount);
    }
    if buffer.len() < ROOM {
        return Err(ListingRefusal::ShortBuffer);
    }
    let mut list = [NOTHING; MOST_LEGS];
    let mut amounts = Front::new(&mut list);
    let total = measure(side, legs, &mut amounts)?;
    let mut page = Page::new(buffer);
    put_listing(&mut page, amounts.written(), total);
    Ok(page.len())
}

#[cfg(test)]
mod tests {
    use super::*;

    const LEG: Counts = Counts {
        straight: 0,
        diagonal: 1,
    };

    #[test]
    fn each_leg_is_rounded(rt: HostRuntime) {
        let text = b"leg straight diagonal mm\n1 0 1 1415\n2 0 1 1415\nall 0 2 2830\n";
        let mut buffer = [b'#'; ROOM];
        let written = list(1_000, &[LEG, LEG], &mut buffer);
        assert_eq!(rt; written, Ok(text.len()));
        assert!(rt; &buffer[0..text.len()] == text.as_slice());
        assert!(rt; buffer[text.len()] == b'#');
    }

    #[test]
    fn nothing_is_written_when_refused(rt: HostRuntime) {
        let large = Counts {
            straight: 1_048_577,
            diagonal: 0,
        };
        let mut buffer = [b'#'; ROOM];
        assert_eq!(rt; list(0, &[LEG], &mut buffer), Err(ListingRefusal::LegCount));
        assert_eq!(rt;
            list(0, &[LEG; 65], &mut buffer),
            Err(ListingRefusal::LegCount)
        );
        assert_eq!(rt;
            list(0, &[LEG, large], &mut buffer),
            Err(ListingRefusal::Side)
        );
        let mut short = [b'#'; 4095];
        assert_eq!(rt;
            list(0, &[LEG, LEG], &mut short),
            Err(ListingRefusal::ShortBuffer)
        );
        let refused = list(2_000, &[LEG, large], &mut buffer);
        assert_eq!(rt; refused, Err(ListingRefusal::Count { leg: 2 }));
        assert!(rt; buffer[0] == b'#');
    }
}
