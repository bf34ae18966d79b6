// Rates: how much a route costs against another, by its counts.
#![tactic(auto)]

ghost use Rattle.std.specs.Prelude.{◌≡◌};
ghost use Rattle.floor.specs.declared.Counts.{Counts as Pair};
ghost use Rattle.rate.specs.declared.Comparison.{Comparison as Answer};
ghost use Rattle.rate.specs.Laws.{Lawful, capped};
ghost use Rattle.rate.specs.Exact.{compared};
ghost use Rattle.rate.specs.Facts.{Facts};

use floor::Counts;
use std::cmp::Ordering;

// What the first of two counts costs, beside the second.
// Kept: a rate answers in the words of costs; `Ordering` says less and greater, and would be no plainer.
#[derive(Clone, Copy, PartialEq, Eq, Debug)]
pub enum Comparison {
    Cheaper,
    Same,
    Dearer,
}

impl Comparison {
    // How one amount stands beside another.
    // Kept: a `From<Ordering>` would need a definition of its own for this one call, and be no plainer.
    pub fn of(first: u64, second: u64) -> Comparison
        ensures { result ≡ compared first second }
    {
        match first.cmp(&second) {
            Ordering::Less => Comparison::Cheaper,
            Ordering::Equal => Comparison::Same,
            Ordering::Greater => Comparison::Dearer,
        }
    }
}

// A rate is an order of counts that keeps the laws; it answers for every two counts.
pub trait Rate {
    ghost order: { Self → Pair → Pair → Answer };

    ghost lawful: { (rate : Self) → Lawful (order rate) };

    fn compare(&self, x: Counts, y: Counts) -> Comparison
        ensures { result ≡ order self.now x y };
}

// A lent rate is a rate.
impl<'b, R: Rate> Rate for &'b R {
    ghost order = { λ rate x y. R.Rate.order rate.now x y };

    ghost lawful = { λ rate. R.Rate.lawful rate.now };

    fn compare(&self, x: Counts, y: Counts) -> Comparison {
        (**self).compare(x, y)
    }
}

// The greatest count that is compared as it is.
pub const LIMIT: u32 = 1_048_576;

// The counts as they are compared.
pub fn cap_counts(counts: Counts) -> Counts
    ensures { result ≡ capped counts }
{
    Counts {
        straight: counts.straight.min(LIMIT),
        diagonal: counts.diagonal.min(LIMIT),
    }
}

// Every rate, by its laws alone, respects dominance, and has the other facts that finding cheapest routes rests on.
pub fn respects_dominance<R: Rate>(rate: &R)
    ensures { Facts (R.Rate.order rate.now) }
{}
