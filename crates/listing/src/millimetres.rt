// The length of a route in millimetres.
ghost use Rattle.std.specs.Prelude.{◌≡◌, ℕ, ◌≤◌, Ok};
ghost use Rattle.rate.specs.Exact.{squared};
ghost use Rattle.listing.specs.Millimetres.{refusal_number, Measured, OneFigure, NoDearerNoLonger};

use floor::Counts;
use rate::LIMIT;

// The longest side of a cell, in millimetres.
const LONGEST_SIDE: u32 = 2_000;

// Why a length is refused.
#[derive(Clone, Copy, PartialEq, Eq, Debug)]
pub enum Refusal {
    // The side is not 1 to 2,000.
    Side = 12,
    // A count is above the limit.
    Count = 13,
}

impl Refusal {
    // The number under which it is printed.
    pub fn number(self) -> u8
        ensures { result ≡ refusal_number self }
    {
        self as u8
    }
}

// The least number whose square is at least `square`.
fn root_up(square: u64) -> u64
    ensures enough { square ≤ squared result }
    ensures least { (n : ℕ) → square ≤ squared n → result ≤ n }
    ensures bound { result ≤ 4294967296 }
{
    let root = square.isqrt();
    if root * root < square { root + 1 } else { root }
}

// The least whole number of millimetres that covers the route, for cells of this side.
pub fn millimetres(side: u32, counts: Counts) -> Result<u64, Refusal>
    ensures { Measured side counts result }
{
    if !(1..=LONGEST_SIDE).contains(&side) {
        return Err(Refusal::Side);
    }
    if counts.straight > LIMIT || counts.diagonal > LIMIT {
        return Err(Refusal::Count);
    }
    let straight = u64::from(side) * u64::from(counts.straight);
    let diagonal = u64::from(side) * u64::from(counts.diagonal);
    Ok(straight + root_up(2 * (diagonal * diagonal)))
}

// Every side and counts have exactly one figure, and what is no dearer by the exact rate is no longer.
pub fn figures_follow_lengths()
    ensures one { OneFigure }
    ensures longer { NoDearerNoLonger }
{}

// Two diagonal steps over cells of one metre.
pub fn two_diagonal_metres() -> Result<u64, Refusal>
    ensures { result ≡ Ok 2829 }
{
    let counts = Counts {
        straight: 0,
        diagonal: 2,
    };
    millimetres(1_000, counts)
}

#[cfg(test)]
mod tests {
    use super::*;

    fn counts_of(straight: u32, diagonal: u32) -> Counts {
        Counts { straight, diagonal }
    }

    #[test]
    fn two_diagonal_steps(rt: HostRuntime) {
        assert_eq!(rt; two_diagonal_metres(), Ok(2_829));
    }

    #[test]
    fn sides_from_one_to_two_thousand(rt: HostRuntime) {
        let straight = counts_of(3, 0);
        assert_eq!(rt; millimetres(0, straight), Err(Refusal::Side));
        assert_eq!(rt; millimetres(1, straight), Ok(3));
        assert_eq!(rt; millimetres(2_000, straight), Ok(6_000));
        assert_eq!(rt; millimetres(2_001, straight), Err(Refusal::Side));
    }

    #[test]
    fn counts_up_to_the_limit(rt: HostRuntime) {
        assert_eq!(rt;
            millimetres(2_000, counts_of(LIMIT, LIMIT)),
            Ok(5_062_972_801)
        );
        assert_eq!(rt;
            millimetres(1, counts_of(LIMIT + 1, 0)),
            Err(Refusal::Count)
        );
        assert_eq!(rt;
            millimetres(1, counts_of(0, LIMIT + 1)),
            Err(Refusal::Count)
        );
    }

    #[test]
    fn the_side_is_asked_first(rt: HostRuntime) {
        let refused = millimetres(0, counts_of(LIMIT + 1, 0));
        assert_eq!(rt; refused, Err(Refusal::Side));
        assert_eq!(rt; Refusal::Side.number(), 12);
        assert_eq!(rt; Refusal::Count.number(), 13);
    }
}
