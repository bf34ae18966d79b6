// The counter rate: a straight step costs 5, a diagonal one 7.
ghost use Rattle.std.specs.Prelude.{◌≡◌};
ghost use Rattle.rate.specs.Laws.{capped};
ghost use Rattle.rate.specs.Counter.{price, counter};
ghost use Rattle.rate.proofs.Lengths.{counter_lawful};

use floor::Counts;
use rate::{Comparison, Rate, cap_counts};

#[derive(Clone, Copy, PartialEq, Eq, Debug)]
pub struct CounterRate;

fn price_of(counts: Counts) -> u64
    ensures { result ≡ price (capped counts) }
{
    let counts = cap_counts(counts);
    5 * u64::from(counts.straight) + 7 * u64::from(counts.diagonal)
}

impl Rate for CounterRate {
    ghost order = { λ _. counter };

    ghost lawful = { λ _. counter_lawful };

    fn compare(&self, x: Counts, y: Counts) -> Comparison {
        Comparison::of(price_of(x), price_of(y))
    }
}
