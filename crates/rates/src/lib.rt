// The rates that there are: exact and counter.
#![tactic(auto)]

ghost use Rattle.std.specs.Prelude.{◌≡◌};
ghost use Rattle.rate.specs.declared.Comparison.TheVariants.{Cheaper, Same};

pub mod counter;
pub mod exact;

use counter::CounterRate;
use exact::ExactRate;
use floor::Counts;
use rate::{Comparison, Rate};

// Seven straight steps beside five diagonal ones, by the exact and by the counter rate: the two differ.
pub fn seven_straight_beside_five_diagonal() -> (Comparison, Comparison)
    ensures { (result.0 ≡ Cheaper) × (result.1 ≡ Same) }
{
    let straight = Counts {
        straight: 7,
        diagonal: 0,
    };
    let diagonal = Counts {
        straight: 0,
        diagonal: 5,
    };
    (
        ExactRate.compare(straight, diagonal),
        CounterRate.compare(straight, diagonal),
    )
}

#[cfg(test)]
mod tests {
    use super::*;
    use rate::LIMIT;

    fn counts_of(straight: u32, diagonal: u32) -> Counts {
        Counts { straight, diagonal }
    }

    #[test]
    fn seven_straight_and_five_diagonal(rt: HostRuntime) {
        let (exact, counter) = seven_straight_beside_five_diagonal();
        assert_eq!(rt; exact, Comparison::Cheaper);
        assert_eq!(rt; counter, Comparison::Same);
    }

    // 41 ÷ 29 is just below √2, and 17 ÷ 12 just above.
    #[test]
    fn close_to_the_root(rt: HostRuntime) {
        let below = ExactRate.compare(counts_of(41, 0), counts_of(0, 29));
        let above = ExactRate.compare(counts_of(0, 12), counts_of(17, 0));
        assert_eq!(rt; below, Comparison::Cheaper);
        assert_eq!(rt; above, Comparison::Cheaper);
    }

    #[test]
    fn larger_counts_are_compared_as_the_limit(rt: HostRuntime) {
        let limit = counts_of(LIMIT, LIMIT);
        let most = counts_of(u32::MAX, u32::MAX);
        assert_eq!(rt; ExactRate.compare(most, limit), Comparison::Same);
        assert_eq!(rt; CounterRate.compare(most, limit), Comparison::Same);
    }
}
